// The ranks served in their order.
ghost use Rattle.std.specs.Prelude.{◌≡◌, ℕ, ◌+◌, ◌≤◌, false, length, is_ok, if◌then◌else◌, slice_index};
ghost use Rattle.search.specs.Answers.{Answers, Suits, checked, has_room};
ghost use Rattle.search.specs.Layouts.{laid};
ghost use Rattle.search.specs.Served.{Served, Standing};
ghost use Rattle.search.specs.Visits.{reached};

use crate::copying::{copy_arcs, copy_nodes};
use crate::entry::NodeEntry;
use crate::error::SearchError;
use crate::flood::Residual;
use crate::layout::Layout;
use crate::rounds::{SHARE, saturate};
use crate::visit::Visit;
use flow::Arc;
use network::Network;

// The most ranks that can be asked for; every rank of a network is below it.
const MOST_RANKS: u16 = 1024;

// Lists that a search works in, lent to it: 12 bytes for each arc, and 16 for each node.
// Visits and slots are lists of their own, since they are written while the entries are only read.
#[derive(Drop)]
pub struct Work<'a> {
    // for each arc
    pub arcs: &'a mut [Arc],
    pub next_out: &'a mut [u16],
    pub next_in: &'a mut [u16],
    // for each node
    pub nodes: &'a mut [NodeEntry],
    pub visits: &'a mut [Visit],
    pub slots: &'a mut [u16],
}

impl Work<'_> {
    // Whether each list has an entry for each node, or for each arc.
    fn has_room(&self, nodes: usize, arcs: usize) -> bool
        ensures { result ≡ has_room self.now nodes arcs }
    {
        self.arcs.len() >= arcs
            && self.next_out.len() >= arcs
            && self.next_in.len() >= arcs
            && self.nodes.len() >= nodes
            && self.visits.len() >= nodes
            && self.slots.len() >= nodes
    }
}

// Gives each node that is reached the mark.
fn stamp(visits: &[Visit], marks: &mut [u16], mark: u16)
    requires { length visits.now ≡ length marks.old }
    ensures { (v : ℕ) → slice_index marks.new v ≡ (if reached visits.now v then mark else slice_index marks.old v) }
{
    // By number: under `zip` the loop's invariant knows of the marks only what the iterator's ghost members say.
    for (v, place) in marks.iter_mut().enumerate() {
        if visits[v].level > 0 {
            *place = mark;
        }
    }
}

// Serves the ranks below k for each k up to `ranks`, and gives what is reached then the mark k + 1.
// Loads, marks and figures are parameters here and wherever they go together: what a struct of lent lists leaves in them can be
// told only by place, as `exit.1.0`, and what a parameter leaves by name.
fn serve_ranks(
    map: Layout,
    ranks: u16,
    loads: &mut [u32],
    marks: &mut [u16],
    figures: &mut [u64],
    visits: &mut [Visit],
    slots: &mut [u16],
)
    requires ranks { ranks ≤ 1024 }
    requires marks { length marks.old ≡ (laid map).nodes }
    requires figures { length figures.old ≡ ranks }
    requires visits { length visits.old ≡ (laid map).nodes }
    requires slots { length slots.old ≡ (laid map).nodes }
    requires start { Standing (laid map) 0 loads.old marks.old figures.old }
    ensures { Standing (laid map.entry) (ranks + 1) loads.new marks.new figures.new }
{
    let steps = Residual { map, loads }.explore(visits, slots);
    let mut patience = steps / SHARE;
    // Over the figures the round for k = 0, which has none, would have to stand before the loop once more.
    for k in 0..ranks + 1 {
        let gained = saturate(map, k, loads, visits, slots, &mut patience);
        stamp(visits, marks, k + 1);
        if k > 0 {
            figures[k as usize - 1] = gained;
        }
    }
}

// Serves the ranks of the network, in lists that have just the entries that are needed.
fn serve_exactly<N: Network>(
    net: &N,
    ranks: u16,
    loads: &mut [u32],
    marks: &mut [u16],
    figures: &mut [u64],
    work: Work,
)
    requires ranks { ranks ≤ 1024 }
    requires loads { length loads.old ≡ length (N.meaning net.now).arcs }
    requires marks { length marks.old ≡ (N.meaning net.now).nodes }
    requires figures { length figures.old ≡ ranks }
    requires work { Suits work (N.meaning net.now).nodes (length (N.meaning net.now).arcs) }
    ensures { Served (N.meaning net.now) ranks loads.new marks.new figures.new }
{
    let Work {
        arcs,
        next_out,
        next_in,
        nodes,
        visits,
        slots,
    } = work;
    copy_nodes(net, nodes);
    copy_arcs(net, arcs, next_out, next_in, nodes);
    loads.fill(0);
    marks.fill(0);
    let map = Layout {
        source: net.source() as u16,
        arcs,
        next_out,
        next_in,
        nodes,
    };
    serve_ranks(map, ranks, loads, marks, figures, visits, slots);
}

// What is wrong with the lists that are handed in for so many nodes, arcs and ranks, if anything is.
fn check_lists(
    nodes: usize,
    arcs: usize,
    ranks: u16,
    loads: &[u32],
    marks: &[u16],
    figures: &[u64],
    work: &Work,
) -> Result<(), SearchError>
    ensures { result ≡ checked nodes arcs ranks (has_room work.now nodes arcs) loads.now marks.now figures.now }
{
    if ranks > MOST_RANKS {
        Err(SearchError::TooManyRanks)
    } else if loads.len() < arcs {
        Err(SearchError::LoadsTooShort)
    } else if marks.len() < nodes {
        Err(SearchError::MarksTooShort)
    } else if figures.len() < usize::from(ranks) {
        Err(SearchError::FiguresTooShort)
    } else if !work.has_room(nodes, arcs) {
        Err(SearchError::WorkTooShort)
    } else {
        Ok(())
    }
}

// Finds one flow that brings the most to the nodes of rank below k, for every k up to `ranks`, and marks each node by how
// many of the k from 0 to `ranks` have it in the smallest of their narrowest cuts. The figures say what each rank gets.
pub fn serve<N: Network>(
    net: &N,
    ranks: u16,
    loads: &mut [u32],
    marks: &mut [u16],
    figures: &mut [u64],
    work: Work,
) -> Result<(), SearchError>
    ensures answer { Answers (N.meaning net.now) ranks (has_room work.entry (N.meaning net.now).nodes (length (N.meaning net.now).arcs)) loads.old loads.new marks.old marks.new figures.old figures.new result }
    ensures untouched { is_ok result ≡ false → (work.exit.0.now ≡ work.entry.arcs.now) × (work.exit.1.0.now ≡ work.entry.next_out.now) × (work.exit.1.1.0.now ≡ work.entry.next_in.now) × (work.exit.1.1.1.0.now ≡ work.entry.nodes.now) × (work.exit.1.1.1.1.0.now ≡ work.entry.visits.now) × (work.exit.1.1.1.1.1.0.now ≡ work.entry.slots.now) }
{
    let node_count = net.node_count();
    let arc_count = net.arc_count();
    check_lists(node_count, arc_count, ranks, loads, marks, figures, &work)?;
    let Work {
        arcs,
        next_out,
        next_in,
        nodes,
        visits,
        slots,
    } = work;
    let exact = Work {
        arcs: &mut arcs[0..arc_count],
        next_out: &mut next_out[0..arc_count],
        next_in: &mut next_in[0..arc_count],
        nodes: &mut nodes[0..node_count],
        visits: &mut visits[0..node_count],
        slots: &mut slots[0..node_count],
    };
    let loads = &mut loads[0..arc_count];
    let marks = &mut marks[0..node_count];
    let figures = &mut figures[0..usize::from(ranks)];
    serve_exactly(net, ranks, loads, marks, figures, exact);
    Ok(())
}
