// The board. Its methods are in the modules below, since their contracts speak of it.
ghost use Rattle.std.specs.Prelude.{◌≡◌, ◌≤◌, ℕ, false, All, slice_index};
ghost use Rattle.timetable.specs.Plans.{Delivers, Feasible, is_depot};
ghost use Rattle.roads.specs.Grids.{grid_of, timetable};
ghost use Rattle.slips.specs.Holds.{holds};
ghost use Rattle.slips.specs.Owed.{owed_at};
ghost use Rattle.board.specs.Owing.{owed_by};
ghost use Rattle.board.specs.Planned.{plan_in};

use crate::loads::Loads;
use planning::Planner;
use roads::Roads;
use slips::table::SlipTable;

mod calls;
mod making;
mod questions;
mod slip_calls;

// The loads are the standing plan. The planner only works in its lists: they are no part of what the board is. The standing plan is
// feasible and delivers just what is owed; no hold has more than 9,999 pallets, and nothing is owed at a yard that is no depot.
#[derive(Drop)]
pub struct Board {
    roads: Roads,
    slips: SlipTable,
    loads: Loads,
    planner: Planner,
    ghost feasible: { Feasible (timetable (grid_of roads)) (plan_in loads) },
    ghost delivers: { Delivers (timetable (grid_of roads)) (slice_index (owed_by (grid_of roads).depots (holds slips))) (plan_in loads) },
    ghost bounded: { All (λ e. e.pallets ≤ 9999) (holds slips) },
    ghost promised: { (y : ℕ) → is_depot (timetable (grid_of roads)) y ≡ false → owed_at y (holds slips) ≡ 0 },
}
