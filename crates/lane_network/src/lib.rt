// The lanes of a timetable as a network, in memory of a fixed size, and the standing rate.
#![tactic(auto)]

ghost use Rattle.lane_network.specs.Lanes.{CapacitySmallest, OneRate};

mod lanes;
mod rate;

pub use lanes::LaneNetwork;
pub use rate::standing_rate;

// What a lane carries in its network is the smallest of the capacities of its departures, or 0 where it has none.
pub fn capacities_are_smallest()
    ensures { CapacitySmallest }
{}

// A timetable has one standing rate.
pub fn rates_are_one()
    ensures { OneRate }
{}
