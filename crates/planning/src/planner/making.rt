// How a planner is made.
use super::Planner;
use flow::Arc;
use search::{NodeEntry, Visit};
use std::alloc::{AllocError, Global};

// The arcs of the largest day network.
const MOST_ARCS: usize = 96 * 48 + 16 * 49;

// The nodes of a day network.
const NODES: usize = 1554;

// The rank of all owed, and those of the largest ranking.
const MOST_RANKS: usize = 49;

impl Planner {
    // A planner; or memory is wanting.
    pub fn new(heap: Global) -> Result<Planner, AllocError> {
        Ok(Planner {
            loads: vec![in heap; 0u32; MOST_ARCS]?,
            marks: vec![in heap; 0u16; NODES]?,
            figures: vec![in heap; 0u64; MOST_RANKS]?,
            arcs: vec![in heap; Arc::default(); MOST_ARCS]?,
            next_out: vec![in heap; 0u16; MOST_ARCS]?,
            next_in: vec![in heap; 0u16; MOST_ARCS]?,
            nodes: vec![in heap; NodeEntry::default(); NODES]?,
            visits: vec![in heap; Visit::default(); NODES]?,
            slots: vec![in heap; 0u16; NODES]?,
        })
    }
}
