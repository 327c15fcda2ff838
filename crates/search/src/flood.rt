// A breadth-first search along the arcs that may be crossed.
ghost use Rattle.std.specs.Prelude.{◌≡◌, length};
ghost use Rattle.search.specs.Layouts.{laid};

use crate::layout::Layout;

mod explore;
mod reopen;

// The residual network: a network, with the load of each arc.
// The visits and the queue, which a search writes, are parameters: a struct that holds a `&mut` obliges each method to say that
// the field is still the same reference, which is no plainer than to say of the queue that it keeps its slots.
#[derive(Clone, Copy)]
pub(crate) struct Residual<'a> {
    pub(crate) map: Layout<'a>,
    pub(crate) loads: &'a [u32],
    ghost loaded: { length loads.now ≡ length (laid map).arcs },
}
