// How the legs of a run are found.
ghost use Rattle.std.specs.Prelude.{◌≡◌, ℕ, ◌+◌, ◌<◌, ◌≤◌, [], length, MatchOption};
ghost use Rattle.queue.specs.Items.{items, slot_count};
ghost use Rattle.board.specs.States.{state_of};
ghost use Rattle.run_sheet.specs.Finding.{Found, Leaves, LeavesNone, StartsAt};
ghost use Rattle.run_sheet.specs.Lists.{Kept, load_count, loads_of};

use crate::laying::place;
use crate::leg::Leg;
use board::Board;
use queue::Queue;

// The load on a lane in a period.
fn load_at(board: &Board, loads: &[u32], lane: u8, period: u8) -> u32
    requires long { load_count (state_of board.now) ≤ length loads.now }
    requires lane { lane < 96 }
    requires period { period ≤ (state_of board.now).grid.horizon }
    ensures { result ≡ loads_of (state_of board.now) loads.now lane period }
{
    loads[place(board, lane, period)]
}

// The first lane that carries pallets from a yard in a period.
fn loaded_lane(board: &Board, loads: &[u32], yard: u8, period: u8) -> Option<u8>
    requires long { load_count (state_of board.now) ≤ length loads.now }
    requires period { period ≤ (state_of board.now).grid.horizon }
    ensures { MatchOption result (LeavesNone (state_of board.now) (loads_of (state_of board.now) loads.now) yard period) (Leaves (state_of board.now) (loads_of (state_of board.now) loads.now) yard period) }
{
    for (number, lane) in board.lanes().iter().enumerate() {
        let number = number as u8;
        if lane.from == yard && load_at(board, loads, number, period) > 0 {
            return Some(number);
        }
    }
    None
}

// The first period in which pallets leave the origin.
pub(crate) fn first_period(board: &Board, loads: &[u32]) -> Option<u8>
    requires { load_count (state_of board.now) ≤ length loads.now }
    ensures { MatchOption result ((t : ℕ) → t ≤ (state_of board.now).grid.horizon → LeavesNone (state_of board.now) (loads_of (state_of board.now) loads.now) (state_of board.now).grid.origin t) (StartsAt (state_of board.now) (loads_of (state_of board.now) loads.now)) }
{
    for period in 0..board.horizon() + 1 {
        if loaded_lane(board, loads, board.origin(), period).is_some() {
            return Some(period);
        }
    }
    None
}

// Follows pallets from the origin as far as they go, and says how many go all the way.
pub(crate) fn follow(board: &Board, loads: &[u32], start: u8, way: &mut Queue<Leg>) -> u32
    requires long { load_count (state_of board.now) ≤ length loads.now }
    requires kept { Kept (state_of board.now) loads.now }
    requires start { StartsAt (state_of board.now) (loads_of (state_of board.now) loads.now) start }
    requires empty { items way.old ≡ [] }
    requires slots { 47 ≤ slot_count way.old }
    ensures { Found (state_of board.now) (loads_of (state_of board.now) loads.now) start (items way.new) result }
{
    let mut yard = board.origin();
    let mut period = start;
    let mut pallets = u32::MAX;
    while let Some(lane) = loaded_lane(board, loads, yard, period) {
        let load = load_at(board, loads, lane, period);
        let leg = Leg {
            lane,
            period,
            pallets: load,
        };
        way.push(leg).unwrap();
        pallets = pallets.min(load);
        let taken = board.lanes()[lane as usize];
        yard = taken.to;
        period += taken.transit;
    }
    pallets
}
