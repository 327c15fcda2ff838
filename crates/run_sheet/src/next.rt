// One run after another.
ghost use Rattle.board.specs.States.{state_of};
ghost use Rattle.run_sheet.specs.Calls.{Takes};
ghost use Rattle.run_sheet.specs.Lists.{Kept};

use crate::finding::{first_period, follow};
use crate::laying::load_count;
use crate::leg::Leg;
use crate::taking::take_off;
use board::Board;
use queue::Queue;
use refusals::Refusal;

// The most legs of a run: each leaves after the one before, and before the last period, which is 47 at most.
pub(crate) const MOST_LEGS: usize = 47;

pub(crate) const NO_LEG: Leg = Leg {
    lane: 0,
    period: 0,
    pallets: 0,
};

// Takes one run off, writes its legs, and says how many there are; or says that no pallets are left.
pub(crate) fn take_next(
    board: &Board,
    loads: &mut [u32],
    legs: &mut [Leg],
) -> Result<Option<usize>, Refusal>
    requires { Kept (state_of board.now) loads.old }
    ensures answer { Takes (state_of board.now) loads.old loads.new legs.old legs.new result }
    ensures kept { Kept (state_of board.now) loads.new }
{
    if loads.len() < load_count(board) || legs.len() < board.horizon() as usize {
        return Err(Refusal::ListTooShort);
    }
    let Some(start) = first_period(board, loads) else {
        return Ok(None);
    };
    let mut slots = [NO_LEG; MOST_LEGS];
    let mut way = Queue::new(&mut slots);
    let pallets = follow(board, loads, start, &mut way);
    Ok(Some(take_off(board, &mut way, pallets, loads, legs)))
}
