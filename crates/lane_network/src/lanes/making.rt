// How a lane network is made.
ghost use Rattle.std.specs.Prelude.{◌≡◌, ℕ, ◌≤◌, length, map, take, None, slice_index, slice_index_or};
ghost use Rattle.lane_network.specs.Kept.{kept};
ghost use Rattle.lane_network.specs.Lanes.{departing, lane_arcs, lane_network, smallest_of, yard_rank};
ghost use Rattle.expanded.specs.Schedules.{timetable_of};

use super::LaneNetwork;
use expanded::Schedule;
use flow::Arc;
use timetable::Lane;

// The smallest of the capacities, or 0 where there is none.
fn smallest(capacities: &[u16]) -> u16
    ensures { result ≡ smallest_of capacities.now }
{
    capacities
        .iter()
        .copied()
        .reduce(|least, capacity| least.min(capacity))
        .unwrap_or(0)
}

// The smallest capacity of the departures of a lane, or 0 where it has none.
fn capacity_of(horizon: u8, transit: u8, capacities: &[u16; 48]) -> u16
    requires { horizon ≤ 47 }
    ensures { result ≡ smallest_of (map (slice_index capacities.now) (departing horizon transit)) }
{
    let departures = (horizon + 1).saturating_sub(transit);
    smallest(&capacities[..usize::from(departures)])
}

// An arc for each lane; the others are no arcs.
fn arcs_of(schedule: Schedule) -> [Arc; 96]
    ensures { take (length schedule.entry.lanes.now) result ≡ lane_arcs (timetable_of schedule.entry) }
{
    let mut arcs = [Arc::default(); 96];
    for (number, lane) in schedule.lanes.iter().enumerate() {
        let Lane { from, to, transit } = *lane;
        let capacity = capacity_of(schedule.horizon, transit, &schedule.capacities[number]);
        arcs[number] = Arc {
            tail: from.into(),
            head: to.into(),
            capacity: capacity.into(),
        };
    }
    arcs
}

// The rank of each yard: 0 for a depot, and none for another.
fn ranks_of(schedule: Schedule) -> [Option<u16>; 32]
    ensures sized { length result ≡ 32 }
    ensures ranked { (y : ℕ) → slice_index_or result y None ≡ yard_rank (timetable_of schedule.entry) y }
{
    let mut ranks = [None; 32];
    for depot in schedule.depots {
        ranks[*depot as usize] = Some(0);
    }
    ranks
}

impl LaneNetwork {
    // The lane network of a timetable.
    pub fn new(schedule: Schedule) -> LaneNetwork
        ensures { kept result ≡ lane_network (timetable_of schedule.entry) }
    {
        LaneNetwork {
            source: schedule.origin.into(),
            arcs: arcs_of(schedule),
            count: schedule.lanes.len(),
            ranks: ranks_of(schedule),
        }
    }
}
