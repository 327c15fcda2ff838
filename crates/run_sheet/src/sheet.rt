// A run sheet. Its methods are in the module below, since their contracts speak of it.
ghost use Rattle.board.specs.States.{state_of};
ghost use Rattle.run_sheet.specs.Lists.{Kept};

use board::Board;

mod calls;

// The board, and a list that is lent for the loads that are still to be taken off: as long as the sheet lasts, the board takes
// questions only, and the list is the sheet's.
#[derive(Drop)]
pub struct RunSheet<'a> {
    board: &'a Board,
    loads: &'a mut [u32],
    ghost kept: { Kept (state_of board.now) loads.now },
}
