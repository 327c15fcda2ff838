// Lists of calls on a board that was just opened, with the slips in a hand.
#![tactic(auto)]

pub mod call;
mod desk;
pub mod replay;
