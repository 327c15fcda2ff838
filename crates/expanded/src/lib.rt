// A timetable with what is owed and a ranking as a network: the day network, worked out arc by arc.
#![tactic(auto)]

ghost use Rattle.expanded.specs.Checker.{ListsSound};

mod day;
mod schedule;

pub use day::{DayNetwork, OwedError};
pub use schedule::Schedule;

// A test that computes: lists that pass it are a timetable within its bounds.
pub fn list_checker()
    ensures { ListsSound }
{}
