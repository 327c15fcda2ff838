// How the loads of a plan are laid out.
ghost use Rattle.std.specs.Prelude.{◌≡◌, ◌<◌, ◌≤◌, length};
ghost use Rattle.board.specs.States.{plan_on, state_of};
ghost use Rattle.run_sheet.specs.Lists.{Laid, load_count, place_of};

use board::Board;
use timetable::MOST_LANES;

// How many loads are laid out.
pub(crate) fn load_count(board: &Board) -> usize
    ensures { result ≡ load_count (state_of board.now) }
{
    MOST_LANES * (board.horizon() as usize + 1)
}

// Where the load of a departure stands.
pub(crate) fn place(board: &Board, lane: u8, period: u8) -> usize
    ensures { result ≡ place_of (state_of board.now) lane period }
{
    lane as usize * (board.horizon() as usize + 1) + period as usize
}

// Copies the load of each departure, and 0 where there is none.
pub(crate) fn copy_loads(board: &Board, loads: &mut [u32])
    requires { length loads.old ≡ load_count (state_of board.now) }
    ensures { Laid (state_of board.now) (plan_on board.now) loads.new }
{
    let periods = board.horizon() as usize + 1;
    for (place, load) in loads.iter_mut().enumerate() {
        let lane = (place / periods) as u8;
        let period = (place % periods) as u8;
        *load = board.load(lane, period).unwrap_or(0);
    }
}
