// One network, the lists that a search of it needs, and what it gets. The methods are in the modules below, since their
// contracts speak of it.
ghost use Rattle.std.specs.Prelude.{◌≡◌, length};
ghost use Rattle.network.specs.Stored.{stored_meaning};

use flow::Arc;
use network::StoredNetwork;
use search::{NodeEntry, SearchError, Visit};

mod entries;
mod error;
mod reading;
mod serving;

pub use error::TrialError;

// The lists have an entry for each arc, for each node, and for each rank asked for. They are what the search is lent, and so
// they are kept as it takes them.
#[derive(Drop)]
pub struct Trial {
    net: StoredNetwork,
    ranks: u16,
    loads: Vec<u32>,
    marks: Vec<u16>,
    figures: Vec<u64>,
    arcs: Vec<Arc>,
    next_out: Vec<u16>,
    next_in: Vec<u16>,
    nodes: Vec<NodeEntry>,
    visits: Vec<Visit>,
    slots: Vec<u16>,
    answer: Result<(), SearchError>,
    ghost loads_fit: { length loads.items ≡ length (stored_meaning net).arcs },
    ghost marks_fit: { length marks.items ≡ (stored_meaning net).nodes },
    ghost figures_fit: { length figures.items ≡ ranks },
    ghost arcs_fit: { length arcs.items ≡ length (stored_meaning net).arcs },
    ghost out_fit: { length next_out.items ≡ length (stored_meaning net).arcs },
    ghost in_fit: { length next_in.items ≡ length (stored_meaning net).arcs },
    ghost nodes_fit: { length nodes.items ≡ (stored_meaning net).nodes },
    ghost visits_fit: { length visits.items ≡ (stored_meaning net).nodes },
    ghost slots_fit: { length slots.items ≡ (stored_meaning net).nodes },
}
