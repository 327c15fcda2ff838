// The lane network of a timetable. Its methods are in the module below, since their contracts speak of it.
ghost use Rattle.std.specs.Prelude.{◌≤◌, take};
ghost use Rattle.network.specs.Limits.{Makes};

use flow::Arc;

mod answers;
mod making;

// The first `count` arcs count.
#[derive(Drop)]
pub struct LaneNetwork {
    source: u16,
    arcs: [Arc; 96],
    count: usize,
    ranks: [Option<u16>; 32],
    ghost counted: { count ≤ 96 },
    ghost makes: { Makes source (take count arcs) ranks },
}
