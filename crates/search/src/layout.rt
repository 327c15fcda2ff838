// A network laid out in lists, with the arcs at each node linked.
ghost use Rattle.std.specs.Prelude.{◌≡◌, ◌<◌, ◌≤◌, length, None};
ghost use Rattle.network.specs.Proper.{ArcsProper};
ghost use Rattle.search.specs.Entries.{rank_at};
ghost use Rattle.search.specs.Links.{Linked};

use crate::entry::NodeEntry;
use flow::Arc;

mod asking;

// The nodes are numbered by their entries. Each arc is linked to the arc before it that leaves its tail, and to that which enters its
// head, by one more than its number, and 0 for none. (These links are lists of their own: a search goes from link to link, and
// waits for each, so they lie as close together as they can.)
#[derive(Clone, Copy)]
pub(crate) struct Layout<'a> {
    pub(crate) source: u16,
    pub(crate) arcs: &'a [Arc],
    pub(crate) next_out: &'a [u16],
    pub(crate) next_in: &'a [u16],
    pub(crate) nodes: &'a [NodeEntry],
    ghost few_nodes: { length nodes.now ≤ 4096 },
    ghost few_arcs: { length arcs.now ≤ 32768 },
    ghost within: { source < length nodes.now },
    ghost bare: { rank_at nodes.now source ≡ None },
    ghost proper: { ArcsProper (length nodes.now) arcs.now },
    ghost out_arcs: { length next_out.now ≡ length arcs.now },
    ghost in_arcs: { length next_in.now ≡ length arcs.now },
    ghost linked: { Linked arcs.now next_out.now next_in.now nodes.now },
}
