// How a network is read.
ghost use Rattle.std.specs.Prelude.{IfOk};
ghost use Rattle.network.specs.Stored.{stored_meaning};
ghost use Rattle.search_trial.specs.Numbers.{left};
ghost use Rattle.search_trial.specs.Reading.{Fresh, Reads};

use super::{Trial, TrialError};
use crate::numbers::Numbers;
use crate::trial::entries::{FromNumbers, read_list};
use flow::Arc;
use network::{Network, StoredNetwork};
use search::{NodeEntry, Visit};
use std::alloc::{AllocError, Global};

impl Trial {
    // The next network: its nodes, then arcs, source and ranks asked for, the nodes' ranks, and the arcs.
    pub fn read(heap: Global, nodes: u32, numbers: &mut Numbers) -> Result<Trial, TrialError>
        ensures { Reads nodes (left numbers.old) (left numbers.new) result }
    {
        let count = u32::from_numbers(numbers);
        let source = u16::from_numbers(numbers);
        let ranks = u16::from_numbers(numbers);
        let node_ranks = read_list(heap, nodes, numbers)?;
        let arcs = read_list(heap, count, numbers)?;
        let net = StoredNetwork::new(source, arcs, node_ranks)?;
        Ok(Trial::new(heap, net, ranks)?)
    }

    // A trial of a network: each number in its lists is 0 at first.
    fn new(heap: Global, net: StoredNetwork, ranks: u16) -> Result<Trial, AllocError>
        ensures { IfOk result (λ t. Fresh t (stored_meaning net) ranks) }
    {
        let nodes = net.node_count();
        let count = net.arc_count();
        Ok(Trial {
            net,
            ranks,
            loads: vec![in heap; 0u32; count]?,
            marks: vec![in heap; 0u16; nodes]?,
            figures: vec![in heap; 0u64; usize::from(ranks)]?,
            arcs: vec![in heap; Arc::default(); count]?,
            next_out: vec![in heap; 0u16; count]?,
            next_in: vec![in heap; 0u16; count]?,
            nodes: vec![in heap; NodeEntry::default(); nodes]?,
            visits: vec![in heap; Visit::default(); nodes]?,
            slots: vec![in heap; 0u16; nodes]?,
            answer: Ok(()),
        })
    }
}
