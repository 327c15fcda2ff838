// A copy of a network, which the search asks in its place.
ghost use Rattle.std.specs.Prelude.{◌≡◌, ℕ, length};
ghost use Rattle.search.specs.Entries.{first_at, rank_at};
ghost use Rattle.search.specs.Links.{Linked};
ghost use Rattle.search.specs.declared.end.End.{End};

use crate::end::End;
use crate::entry::{Links, NodeEntry};
use flow::Arc;
use network::Network;

// Copies the ranks, with no arc linked yet.
pub(crate) fn copy_nodes<N: Network>(net: &N, nodes: &mut [NodeEntry])
    requires { length nodes.old ≡ (N.meaning net.now).nodes }
    ensures ranks { (v : ℕ) → rank_at nodes.new v ≡ (N.meaning net.now).rank v }
    ensures unlinked { (end : End) (v : ℕ) → first_at end nodes.new v ≡ 0 }
{
    for (v, entry) in nodes.iter_mut().enumerate() {
        *entry = NodeEntry {
            rank: net.rank(v),
            first: Links::default(),
        };
    }
}

// Copies the arcs, and links each at both of its ends.
pub(crate) fn copy_arcs<N: Network>(
    net: &N,
    arcs: &mut [Arc],
    next_out: &mut [u16],
    next_in: &mut [u16],
    nodes: &mut [NodeEntry],
)
    requires arcs { length arcs.old ≡ length (N.meaning net.now).arcs }
    requires next_out { length next_out.old ≡ length (N.meaning net.now).arcs }
    requires next_in { length next_in.old ≡ length (N.meaning net.now).arcs }
    requires nodes { length nodes.old ≡ (N.meaning net.now).nodes }
    requires unlinked { (end : End) (v : ℕ) → first_at end nodes.old v ≡ 0 }
    ensures arcs { arcs.new ≡ (N.meaning net.now).arcs }
    ensures ranks { (v : ℕ) → rank_at nodes.new v ≡ rank_at nodes.old v }
    ensures linked { Linked arcs.new next_out.new next_in.new nodes.new }
{
    for (e, place) in arcs.iter_mut().enumerate() {
        let arc = net.arc(e);
        // As a cast, since it is proved to fit.
        let link = e as u16 + 1;
        next_out[e] = nodes[arc.tail as usize].first.relink(End::Tail, link);
        next_in[e] = nodes[arc.head as usize].first.relink(End::Head, link);
        *place = arc;
    }
}
