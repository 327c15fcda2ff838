// What records ask of a board by more than one call, or with lists of their own.
ghost use Rattle.std.specs.Prelude.{◌≡◌, ◌≢◌, OnErr, length};
ghost use Rattle.slips.specs.declared.moves.Act.TheVariants.{TearUp};
ghost use Rattle.board.specs.States.{state_of};
ghost use Rattle.session.specs.Asking.{HoldsPinned, QuotesFigures, SpendsPicked};
ghost use Rattle.session.specs.Replies.{figures_of};

use crate::reply::Figures;
use board::Board;
use ranking::Ranking;
use refusals::Refusal;
use slips::moves::Act;

// Holds pallets, pins the slip at once, and gives its number.
#[tactic(auto, unfolding(crate::specs::Asking::HoldsPinned))]
pub(crate) fn hold_pinned(board: &mut Board, yard: u8, pallets: u16) -> Result<u16, Refusal>
    ensures answer { HoldsPinned (state_of board.old) yard pallets result (state_of board.new) }
    ensures kept { OnErr result (state_of board.new ≡ state_of board.old) }
{
    let slip = board.hold(yard, pallets)?;
    let number = slip.number();
    board.spend(slip, Act::Pin).unwrap();
    Ok(number)
}

// Picks up the slip of a number, and spends it at once. (By `let else`: the slip is taken out, and what refuses it is the answer.)
#[tactic(auto, unfolding(crate::specs::Asking::SpendsPicked))]
pub(crate) fn spend_picked(board: &mut Board, number: u16, act: Act) -> Result<(), Refusal>
    requires { act ≢ TearUp }
    ensures answer { SpendsPicked (state_of board.old) number act result (state_of board.new) }
    ensures kept { OnErr result (state_of board.new ≡ state_of board.old) }
{
    let picked = board.pick_up(number);
    let Ok(slip) = picked else {
        let Err(why) = picked else { unreachable!() };
        return Err(why);
    };
    board.spend(slip, act).unwrap();
    Ok(())
}

// The figures of a quote by a ranking. Its lists are long enough for each quote, so none is turned away.
pub(crate) fn quote_figures<R: Ranking + Drop>(board: &mut Board, ranking: R) -> Figures
    ensures right { QuotesFigures (state_of board.old) (R.meaning ranking (length (state_of board.old).grid.depots) (state_of board.old).grid.horizon) (figures_of result) }
    ensures kept { state_of board.new ≡ state_of board.old }
{
    let count = ranking.rank_count(board.depots().len() as u8, board.horizon());
    let mut list = [0; 48];
    let mut marks = [0; 1536];
    board.quote(ranking, &mut list, &mut marks).unwrap();
    Figures { list, count }
}
