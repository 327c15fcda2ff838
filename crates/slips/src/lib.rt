// Holds and their slips: a hold promises pallets to a depot, and its slip is the one thing by which it is booked or
// released.
#![tactic(auto)]

pub mod moves;
pub mod refusal;
pub mod slip;
pub mod table;
