// The times between which a place is live: for each yard, from which period on a pallet can be there, and up to which period a
// pallet there can still be at a depot by the horizon.
#![tactic(auto)]

mod arrival;
mod departure;
mod live;
mod times;

pub use arrival::earliest;
pub use departure::latest;
pub use live::LiveTimes;
pub use times::Times;
