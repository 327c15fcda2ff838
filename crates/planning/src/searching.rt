// The search, with the lists that it works in one by one, so that a caller knows that each keeps its length.
ghost use Rattle.std.specs.Prelude.{◌≡◌, ◌≤◌, length, take};
ghost use Rattle.search.specs.Served.{Served};

use flow::Arc;
use network::Network;
use search::{NodeEntry, Visit, Work, serve};

// Serves so many ranks of the network, in lists that have room for it: a mark for each node and no more, and at least a load for
// each arc and a figure for each rank.
pub(crate) fn serve_with<N: Network>(
    net: &N,
    ranks: u16,
    loads: &mut [u32],
    marks: &mut [u16],
    figures: &mut [u64],
    arcs: &mut [Arc],
    next_out: &mut [u16],
    next_in: &mut [u16],
    nodes: &mut [NodeEntry],
    visits: &mut [Visit],
    slots: &mut [u16],
)
    requires ranks { ranks ≤ 1024 }
    requires for_arcs { let m = length (N.meaning net.now).arcs in (m ≤ length loads.old) × (m ≤ length arcs.old) × (m ≤ length next_out.old) × (m ≤ length next_in.old) }
    requires for_nodes { let n = (N.meaning net.now).nodes in (length marks.old ≡ n) × (n ≤ length nodes.old) × (n ≤ length visits.old) × (n ≤ length slots.old) }
    requires for_ranks { ranks ≤ length figures.old }
    ensures { Served (N.meaning net.now) ranks (take (length (N.meaning net.now).arcs) loads.new) marks.new (take ranks figures.new) }
{
    let work = Work {
        arcs,
        next_out,
        next_in,
        nodes,
        visits,
        slots,
    };
    serve(net, ranks, loads, marks, figures, work).unwrap();
}
