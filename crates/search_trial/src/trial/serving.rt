// What a network gets, and the text of it.
ghost use Rattle.std.specs.Prelude.{◌≡◌, length, Some};
ghost use Rattle.network.specs.Stored.{stored_meaning};
ghost use Rattle.search_trial.specs.Serving.{Gets, Serves, text_of};

use super::Trial;
use flow::Arc;
use network::StoredNetwork;
use search::{NodeEntry, SearchError, Visit, Work, serve};
use std::fmt;

// The search, with the lists that it works in one by one: so that a caller knows that each keeps its length.
fn serve_with(
    net: &StoredNetwork,
    ranks: u16,
    loads: &mut [u32],
    marks: &mut [u16],
    figures: &mut [u64],
    arcs: &mut [Arc],
    next_out: &mut [u16],
    next_in: &mut [u16],
    nodes: &mut [NodeEntry],
    visits: &mut [Visit],
    slots: &mut [u16],
) -> Result<(), SearchError>
    requires for_arcs { let m = length (stored_meaning net.now).arcs in (length loads.old ≡ m) × (length arcs.old ≡ m) × (length next_out.old ≡ m) × (length next_in.old ≡ m) }
    requires for_nodes { let n = (stored_meaning net.now).nodes in (length marks.old ≡ n) × (length nodes.old ≡ n) × (length visits.old ≡ n) × (length slots.old ≡ n) }
    requires for_ranks { length figures.old ≡ ranks }
    ensures { Gets (stored_meaning net.now) ranks loads.old loads.new marks.old marks.new figures.old figures.new result }
{
    let work = Work {
        arcs,
        next_out,
        next_in,
        nodes,
        visits,
        slots,
    };
    serve(net, ranks, loads, marks, figures, work)
}

impl Trial {
    // Serves the ranks that are asked for, in lists of the trial's own.
    pub fn serve(&mut self)
        ensures { Serves self.old self.new }
    {
        self.answer = serve_with(
            &self.net,
            self.ranks,
            &mut self.loads,
            &mut self.marks,
            &mut self.figures,
            &mut self.arcs,
            &mut self.next_out,
            &mut self.next_in,
            &mut self.nodes,
            &mut self.visits,
            &mut self.slots,
        );
    }
}

// The figures and the marks, or why there are none.
impl fmt::Display for Trial {
    ghost output = { λ t. Some (text_of t) };

    fn fmt<W: fmt::Write>(&self, f: &mut fmt::Formatter<W>) -> fmt::Result {
        let figures = &self.figures;
        let marks = &self.marks;
        match self.answer {
            Ok(()) => write!(f, "figures {figures:?} marks {marks:?}"),
            Err(error) => write!(f, "{error}"),
        }
    }
}
