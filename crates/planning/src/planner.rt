// What a search over a day network works and answers in. The methods are in the modules below, since their contracts speak of it.
ghost use Rattle.std.specs.Prelude.{◌≡◌, length};

use flow::Arc;
use search::{NodeEntry, Visit};

mod asking;
mod making;
mod plans;
mod quotes;
mod telling;

// Lists for the largest day network: 96 lanes with 48 departures, and 49 arcs for each of 16 depots; 1,554 nodes; and 49 ranks.
// They are made once, and no call after that needs memory.
#[derive(Drop)]
pub struct Planner {
    loads: Vec<u32>,
    marks: Vec<u16>,
    figures: Vec<u64>,
    arcs: Vec<Arc>,
    next_out: Vec<u16>,
    next_in: Vec<u16>,
    nodes: Vec<NodeEntry>,
    visits: Vec<Visit>,
    slots: Vec<u16>,
    ghost loads_fit: { length loads.items ≡ 5392 },
    ghost marks_fit: { length marks.items ≡ 1554 },
    ghost figures_fit: { length figures.items ≡ 49 },
    ghost arcs_fit: { length arcs.items ≡ 5392 },
    ghost out_fit: { length next_out.items ≡ 5392 },
    ghost in_fit: { length next_in.items ≡ 5392 },
    ghost nodes_fit: { length nodes.items ≡ 1554 },
    ghost visits_fit: { length visits.items ≡ 1554 },
    ghost slots_fit: { length slots.items ≡ 1554 },
}
