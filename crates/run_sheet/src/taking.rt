// How a run is taken off.
ghost use Rattle.std.specs.Prelude.{◌≡◌, ◌≤◌, length};
ghost use Rattle.queue.specs.Items.{items};
ghost use Rattle.board.specs.States.{state_of};
ghost use Rattle.run_sheet.specs.Lists.{load_count, loads_of};
ghost use Rattle.run_sheet.specs.Taking.{Ready, Taken};

use crate::laying::place;
use crate::leg::Leg;
use board::Board;
use queue::Queue;

// Takes pallets off each leg that waits, and writes the legs with them. Says how many there are.
pub(crate) fn take_off(
    board: &Board,
    way: &mut Queue<Leg>,
    pallets: u32,
    loads: &mut [u32],
    legs: &mut [Leg],
) -> usize
    requires long { load_count (state_of board.now) ≤ length loads.old }
    requires ready { Ready (state_of board.now) (loads_of (state_of board.now) loads.old) pallets 0 (items way.old) }
    requires room { length (items way.old) ≤ length legs.old }
    ensures { Taken (state_of board.now) pallets (items way.old) loads.old loads.new legs.old legs.new result }
{
    let mut count = 0;
    while let Some(leg) = way.pop() {
        loads[place(board, leg.lane, leg.period)] -= pallets;
        legs[count] = Leg { pallets, ..leg };
        count += 1;
    }
    count
}
