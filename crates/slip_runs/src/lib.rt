// Lists of slip calls on a fresh table, with the slips in a hand.
#![tactic(auto)]

mod desk;
pub mod replay;
pub mod request;
