// How a stored network is made, and how it answers.
ghost use Rattle.std.specs.Prelude.{◌≡◌};
ghost use Rattle.std.specs.List.{list_all};
ghost use Rattle.network.specs.Limits.{fits, joins, low_rank};
ghost use Rattle.network.specs.Stored.{Builds, stored_meaning, stored_proper};

use super::{NetworkError, StoredNetwork};
use crate::network::Network;
use flow::Arc;

// The most nodes and arcs, the largest capacity, and the number that every rank is below.
const MOST_NODES: usize = 4096;

const MOST_ARCS: usize = 32768;

const MOST_CAPACITY: u32 = 46075392;

const MOST_RANKS: u16 = 1024;

// Whether both ends of each arc are nodes.
fn all_joined(nodes: usize, arcs: &[Arc]) -> bool
    ensures { result ≡ list_all (joins nodes) arcs.now }
{
    arcs.iter().all(|arc| usize::from(arc.tail) < nodes && usize::from(arc.head) < nodes)
}

// Whether no capacity is too large.
fn all_fitting(arcs: &[Arc]) -> bool
    ensures { result ≡ list_all fits arcs.now }
{
    arcs.iter().all(|arc| arc.capacity <= MOST_CAPACITY)
}

// Whether no rank is too high.
fn all_low(ranks: &[Option<u16>]) -> bool
    ensures { result ≡ list_all low_rank ranks.now }
{
    ranks
        .iter()
        .all(|rank| rank.is_none_or(|rank| rank < MOST_RANKS))
}

impl StoredNetwork {
    // The network of these arcs, with a node for each rank.
    pub fn new(
        source: u16,
        arcs: Vec<Arc>,
        ranks: Vec<Option<u16>>,
    ) -> Result<StoredNetwork, NetworkError>
        ensures { Builds source arcs.items ranks.items result }
    {
        let nodes = ranks.len();
        if nodes > MOST_NODES {
            return Err(NetworkError::TooManyNodes);
        }
        if arcs.len() > MOST_ARCS {
            return Err(NetworkError::TooManyArcs);
        }
        if usize::from(source) >= nodes {
            return Err(NetworkError::SourceIsNoNode);
        }
        if ranks[usize::from(source)].is_some() {
            return Err(NetworkError::SourceHasRank);
        }
        if !all_joined(nodes, &arcs) {
            return Err(NetworkError::EndIsNoNode);
        }
        if !all_fitting(&arcs) {
            return Err(NetworkError::CapacityTooLarge);
        }
        if !all_low(&ranks) {
            return Err(NetworkError::RankTooHigh);
        }
        Ok(StoredNetwork {
            source,
            arcs,
            ranks,
        })
    }
}

impl Network for StoredNetwork {
    ghost meaning = { stored_meaning };

    ghost proper = { stored_proper };

    fn node_count(&self) -> usize {
        self.ranks.len()
    }

    fn source(&self) -> usize {
        usize::from(self.source)
    }

    fn arc_count(&self) -> usize {
        self.arcs.len()
    }

    fn arc(&self, number: usize) -> Arc {
        self.arcs[number]
    }

    fn rank(&self, node: usize) -> Option<u16> {
        self.ranks[node]
    }
}
