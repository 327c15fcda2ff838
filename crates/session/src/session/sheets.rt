// The run sheet of a day.
ghost use Rattle.std.specs.Prelude.{IfOk, map, vec_items};
ghost use Rattle.session.specs.Days.{day_of};
ghost use Rattle.session.specs.Sheets.{RunsOf};

use super::Session;
use run_sheet::{Leg, all_runs};
use std::alloc::{AllocError, Global};

impl Session<'_> {
    // The runs of the standing plan, each by its legs.
    pub fn runs(&self, heap: Global) -> Result<Vec<Vec<Leg>>, AllocError>
        ensures { IfOk result (λ runs. RunsOf (day_of self.now).board (map vec_items (vec_items runs))) }
    {
        all_runs(heap, &self.board)
    }
}
