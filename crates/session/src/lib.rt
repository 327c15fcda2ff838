// The day at a board: each record of a day file performed, and what it is answered.
#![tactic(auto)]

mod asking;
pub mod fault;
mod names;
pub mod reply;
pub mod session;
