// Lists of calls on a board that was just opened.
ghost use Rattle.std.specs.Prelude.{◌≡◌, ◌≤◌, map, vec_capacity, vec_len};
ghost use Rattle.refusals.specs.Runs.{Ran};
ghost use Rattle.board_runs.specs.Asks.{asked, told};
ghost use Rattle.board_runs.specs.Laws.{OneWorld, Opened, Replayed};
ghost use Rattle.board_runs.specs.Steps.{Step, moment_of, spare_places};

use crate::call::{Answer, Call};
use crate::desk::Desk;
use board::Board;
use ranking::Ranking;
use refusals::Refusal;
use slips::slip::Slip;
use std::alloc::Global;

// What a list of calls leaves: the board, the slips in hand, and an answer to each call.
pub struct Outcome {
    pub board: Board,
    pub hand: Vec<Slip>,
    pub answers: Vec<Answer>,
}

// Why no call was made: memory is wanting, or the opening is refused.
#[derive(Clone, Copy, Debug, PartialEq, Eq)]
pub enum Reason {
    NoMemory,
    Refused(Refusal),
}

// No call was made, and the slips come back.
pub struct NotRun {
    pub reason: Reason,
    pub hand: Vec<Slip>,
}

// The calls leave no choice of what they make.
pub fn one_world()
    ensures { OneWorld }
{}

// A board that is opened with this horizon and this origin.
fn opened(heap: Global, horizon: u8, origin: u8) -> Result<Board, Reason>
    ensures { Opened horizon origin result }
{
    let Ok(mut board) = Board::new(heap) else {
        return Err(Reason::NoMemory);
    };
    match board.open(horizon, origin) {
        Ok(()) => Ok(board),
        Err(why) => Err(Reason::Refused(why)),
    }
}

// Makes the calls in their order, and notes the answers. The hand and the list of answers have a place more for each call.
fn make_all<R: Ranking + Drop>(desk: &mut Desk, calls: Vec<Call<R>>, answers: &mut Vec<Answer>)
    requires fresh { vec_len answers.old ≡ 0 }
    requires answers { vec_len calls ≤ vec_capacity answers.old }
    requires hand { vec_len calls ≤ spare_places desk.old }
    ensures { Ran Step (moment_of desk.old) (map (asked R.meaning) calls.items) (map told answers.new.items) (moment_of desk.new) }
{
    for call in calls {
        answers.push_reserved(desk.turn(call));
    }
}

// Makes the calls in their order on a board opened with this horizon and this origin. The hand has the slips handed in, perhaps of
// other boards, and those gained.
pub fn replay<R: Ranking + Drop>(
    heap: Global,
    horizon: u8,
    origin: u8,
    mut hand: Vec<Slip>,
    calls: Vec<Call<R>>,
) -> Result<Outcome, NotRun>
    ensures { Replayed R.meaning horizon origin hand.items calls.items result }
{
    let reason = Reason::NoMemory;
    let Ok(()) = hand.reserve(calls.len()) else {
        return Err(NotRun { reason, hand });
    };
    let Ok(mut answers) = Vec::with_capacity(heap, calls.len()) else {
        return Err(NotRun { reason, hand });
    };
    let board = match opened(heap, horizon, origin) {
        Ok(board) => board,
        Err(reason) => return Err(NotRun { reason, hand }),
    };
    let mut desk = Desk { board, hand };
    make_all(&mut desk, calls, &mut answers);
    let Desk { board, hand } = desk;
    Ok(Outcome {
        board,
        hand,
        answers,
    })
}
