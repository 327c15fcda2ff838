// The ways by which a search reached the nodes, and what is sent along them.
ghost use Rattle.search.specs.Layouts.{laid};
ghost use Rattle.search.specs.Visits.{Tree};

use crate::layout::Layout;
use crate::visit::Visit;

mod press;
mod push;
mod serve;

pub(crate) use press::drain_again;

// A network, with the way from its source to each node that was reached.
// The loads, which are written, are a parameter, and that they are a flow under which only the ranks below k keep anything
// stands in each contract, for the same reason as at `Residual`.
#[derive(Clone, Copy)]
pub(crate) struct Ways<'a> {
    pub(crate) map: Layout<'a>,
    pub(crate) visits: &'a [Visit],
    ghost tree: { Tree (laid map) visits.now },
}
