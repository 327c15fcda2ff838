// Plans and quotes: the search asked on the day network of a timetable, and what it finds told in the board's own words.
#![tactic(auto)]

mod copying;
mod error;
mod marking;
mod planner;
mod searching;
mod sums;

pub use error::{PlanError, QuoteError};
pub use planner::Planner;
