// Lists of requests on a fresh table.
ghost use Rattle.std.specs.Prelude.{◌≡◌, MatchResult};
ghost use Rattle.slip_runs.specs.Laws.{Kept};
ghost use Rattle.slip_runs.specs.Rules.{world_of};

use crate::desk::Desk;
use crate::request::{Answer, Request};
use slips::slip::Slip;
use slips::table::SlipTable;
use std::alloc::Global;

// What a list of requests leaves: the table, the slips in hand, and an answer to each request.
pub struct Outcome {
    pub table: SlipTable,
    pub hand: Vec<Slip>,
    pub answers: Vec<Answer>,
}

// Memory is wanting. No request was made, and the slips come back.
pub struct NoMemory {
    pub hand: Vec<Slip>,
}

// Makes the requests in their order on a fresh table. The hand has the slips handed in, perhaps of other tables, and
// those gained.
pub fn replay(heap: Global, mut hand: Vec<Slip>, requests: &[Request]) -> Result<Outcome, NoMemory>
    ensures { MatchResult result (λ o. Kept hand.items requests.now o.answers.items (world_of o.table o.hand)) (λ back. back.hand.items ≡ hand.items) }
{
    let Ok(()) = hand.reserve(requests.len()) else {
        return Err(NoMemory { hand });
    };
    let Ok(mut answers) = Vec::with_capacity(heap, requests.len()) else {
        return Err(NoMemory { hand });
    };
    let mut desk = Desk {
        table: SlipTable::new(),
        hand,
    };
    for request in requests {
        answers.push_reserved(desk.turn(*request));
    }
    let Desk { table, hand } = desk;
    Ok(Outcome {
        table,
        hand,
        answers,
    })
}
