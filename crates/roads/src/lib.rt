// The roads of a board: its horizon, its origin, its lanes with the capacities of their departures, and its depots.
#![tactic(auto)]

mod roads;

pub use roads::Roads;
