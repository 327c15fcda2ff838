// The board: lanes and depots, holds with their slips, a standing plan that delivers all owed, and what can still be brought.
#![tactic(auto)]

mod board;
mod loads;
mod owing;

pub use board::Board;
