// The lines that the program `day` prints.
#![tactic(auto)]

pub mod ending;
pub mod listing;
pub mod text;
