// The times of a timetable, by which its live places are told.
mod calls;

use crate::times::Times;

// From which period on a pallet can be at each yard, and up to which period it can still go to a depot.
#[derive(Clone, Copy, Debug, PartialEq, Eq)]
pub struct LiveTimes {
    come: Times,
    leave: Times,
}
