// The calls on roads.
ghost use Rattle.std.specs.Prelude.{◌≡◌, IfOk};
ghost use Rattle.roads.specs.Grids.{grid_of, opened};
ghost use Rattle.roads.specs.Rules.{Adds, Names, Opens, Sets};

use super::Roads;
use refusals::Refusal;
use std::alloc::{AllocError, Global};
use std::mem;
use timetable::{LAST_PERIOD, LAST_YARD, Lane, MOST_DEPOTS, MOST_LANES};

// The largest capacity.
const MOST_CAPACITY: u16 = 9999;

impl Roads {
    // Roads with the horizon 1 and the origin 0, and nothing else.
    pub fn new(heap: Global) -> Result<Roads, AllocError>
        ensures { IfOk result (λ r. grid_of r ≡ opened 1 0) }
    {
        Ok(Roads {
            horizon: 1,
            origin: 0,
            lanes: Vec::with_capacity(heap, MOST_LANES)?,
            capacities: Vec::with_capacity(heap, MOST_LANES)?,
            depots: Vec::with_capacity(heap, MOST_DEPOTS)?,
        })
    }

    // Starts afresh, with this horizon and this origin.
    pub fn open(&mut self, horizon: u8, origin: u8) -> Result<(), Refusal>
        ensures { Opens (grid_of self.old) horizon origin result (grid_of self.new) }
    {
        if horizon < 1 || horizon > LAST_PERIOD {
            return Err(Refusal::BadHorizon);
        }
        if origin > LAST_YARD {
            return Err(Refusal::BadYard);
        }
        self.lanes.clear();
        self.capacities.clear();
        self.depots.clear();
        self.horizon = horizon;
        self.origin = origin;
        Ok(())
    }

    // Adds a lane, all of whose departures get the capacity, and gives its number.
    pub fn add_lane(&mut self, lane: Lane, capacity: u16) -> Result<u8, Refusal>
        ensures { Adds (grid_of self.old) lane capacity result (grid_of self.new) }
    {
        if lane.from > LAST_YARD || lane.to > LAST_YARD {
            return Err(Refusal::BadYard);
        }
        if lane.transit < 1 || lane.transit > LAST_PERIOD {
            return Err(Refusal::BadTransit);
        }
        if capacity > MOST_CAPACITY {
            return Err(Refusal::BadCapacity);
        }
        if lane.to == self.origin || lane.to == lane.from {
            return Err(Refusal::BadEnds);
        }
        let number = self.lanes.len();
        if number >= MOST_LANES {
            return Err(Refusal::NoneLeft);
        }
        self.lanes.push_reserved(lane);
        self.capacities.push_reserved([capacity; 48]);
        Ok(number as u8)
    }

    // Names a depot, and gives its place in their order.
    pub fn name_depot(&mut self, yard: u8) -> Result<u8, Refusal>
        ensures { Names (grid_of self.old) yard result (grid_of self.new) }
    {
        if yard > LAST_YARD {
            return Err(Refusal::BadYard);
        }
        let order = self.depots.len();
        if order >= MOST_DEPOTS {
            return Err(Refusal::NoneLeft);
        }
        if yard == self.origin || self.is_depot(yard) {
            return Err(Refusal::NamedBefore);
        }
        self.depots.push_reserved(yard);
        Ok(order as u8)
    }

    // Sets the capacity of a departure, and gives that which it had.
    pub fn set_capacity(&mut self, lane: u8, period: u8, capacity: u16) -> Result<u16, Refusal>
        ensures { Sets (grid_of self.old) lane period capacity result (grid_of self.new) }
    {
        if capacity > MOST_CAPACITY {
            return Err(Refusal::BadCapacity);
        }
        if !self.departs(lane, period) {
            return Err(Refusal::NoDeparture);
        }
        let place = &mut self.capacities[lane as usize][period as usize];
        Ok(mem::replace(place, capacity))
    }
}
