// A whole plan, taken apart.
ghost use Rattle.std.specs.Prelude.{IfOk, map, vec_items};
ghost use Rattle.board.specs.States.{plan_on, state_of};
ghost use Rattle.run_sheet.specs.Splits.{Splits};

use crate::laying::load_count;
use crate::leg::Leg;
use crate::next::{MOST_LEGS, NO_LEG};
use crate::sheet::RunSheet;
use board::Board;
use std::alloc::{AllocError, Global};

// All runs of the standing plan of a board, each by its legs.
pub fn all_runs(heap: Global, board: &Board) -> Result<Vec<Vec<Leg>>, AllocError>
    ensures { IfOk result (λ runs. Splits (state_of board.now) (plan_on board.now) (map vec_items (vec_items runs))) }
{
    let mut loads = vec![in heap; 0u32; load_count(board)]?;
    let mut legs = [NO_LEG; MOST_LEGS];
    let mut sheet = RunSheet::lay(board, &mut loads);
    let mut runs = Vec::new(heap);
    while let Some(count) = sheet.take_run(&mut legs).unwrap() {
        runs.push(Vec::from_slice(heap, &legs[..count])?)?;
    }
    Ok(runs)
}
