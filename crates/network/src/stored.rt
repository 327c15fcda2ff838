// A network that is stored: its arcs in one list, and the rank of each node in another.
ghost use Rattle.std.specs.Prelude.{◌≡◌, ◌<◌, ◌≤◌, false, length, None, IsTrue, slice_index_or};
ghost use Rattle.std.specs.List.{list_all};
ghost use Rattle.flow.specs.Network.{is_ranked};
ghost use Rattle.network.specs.Limits.{fits, joins, low_rank};

use flow::Arc;

mod fault;
mod works;

// There is a node for each entry of `ranks`.
#[derive(Drop)]
pub struct StoredNetwork {
    source: u16,
    arcs: Vec<Arc>,
    ranks: Vec<Option<u16>>,
    ghost few_nodes: { length ranks.items ≤ 4096 },
    ghost few_arcs: { length arcs.items ≤ 32768 },
    ghost within: { source < length ranks.items },
    ghost bare: { is_ranked (slice_index_or ranks.items source None) ≡ false },
    ghost ends: { IsTrue (list_all (joins (length ranks.items)) arcs.items) },
    ghost capacities: { IsTrue (list_all fits arcs.items) },
    ghost low: { IsTrue (list_all low_rank ranks.items) },
}

// Why lists of arcs and ranks make no network.
#[derive(Clone, Copy, Debug, PartialEq, Eq)]
pub enum NetworkError {
    // there are more than 4,096 nodes
    TooManyNodes,
    // there are more than 32,768 arcs
    TooManyArcs,
    // the source is no node
    SourceIsNoNode,
    // the source has a rank
    SourceHasRank,
    // an end of an arc is no node
    EndIsNoNode,
    // an arc has a capacity above 46,075,392
    CapacityTooLarge,
    // a node has a rank of 1,024 or more
    RankTooHigh,
}
