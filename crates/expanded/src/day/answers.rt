// What the day network answers.
ghost use Rattle.std.specs.Prelude.{◌≡◌, ◌≤◌, ◌<◌, ◌&&◌, ◌≢◌, ℕ, MatchOption, length, slice_index};
ghost use Rattle.timetable.specs.Plans.{depot};
ghost use Rattle.timetable.specs.Live.{is_live};
ghost use Rattle.day_network.specs.DayNetwork.{arc_count, departure_arc, depot_arc, laid, node, owed_arc, place_rank};
ghost use Rattle.expanded.specs.Days.{day_of, day_proper, ranks_of};
ghost use Rattle.expanded.specs.Schedules.{timetable_of};

use super::DayNetwork;
use crate::schedule::Schedule;
use flow::Arc;
use network::Network;
use ranking::Ranking;
use timetable::Lane;

// The node that stands for all origin places.
const SOURCE: u16 = 1536;

// The first of the nodes for what is owed at a depot.
const OWED: u16 = 1537;

// The node for all owed, and the number of nodes.
const ALL_OWED: u16 = 1553;

const NODES: usize = 1554;

// The arc that is no departure.
const NO_DEPARTURE: Arc = Arc {
    tail: SOURCE,
    head: SOURCE,
    capacity: 0,
};

impl Schedule<'_> {
    // The node of a place.
    fn node(&self, yard: u8, period: u8) -> u16
        ensures { result ≡ node (timetable_of self.now) yard period }
    {
        if yard == self.origin {
            SOURCE
        } else {
            u16::from(yard) * 48 + u16::from(period)
        }
    }
}

impl<R> DayNetwork<'_, R> {
    // Whether the place is live.
    pub fn is_live(&self, yard: u8, period: u8) -> bool
        ensures { result ≡ is_live (timetable_of self.now.schedule) yard period }
    {
        self.live.is_live(yard, period)
    }

    // The arc of the departure of a lane in a period, which may be none.
    fn departure(&self, lane: usize, period: u8) -> Arc
        requires lane { lane < length self.now.schedule.lanes.now }
        requires period { period < 48 }
        ensures { result ≡ departure_arc (timetable_of self.now.schedule) lane period }
    {
        let Lane { from, to, transit } = self.schedule.lanes[lane];
        let arrival = period + transit;
        if arrival > self.schedule.horizon
            || !self.is_live(from, period)
            || !self.is_live(to, arrival)
        {
            return NO_DEPARTURE;
        }
        Arc {
            tail: self.schedule.node(from, period),
            head: self.schedule.node(to, arrival),
            capacity: u32::from(self.schedule.capacities[lane][period as usize]),
        }
    }
}

impl<R> DayNetwork<'_, R> {
    // The arc from a place of a depot to what is owed there; past the horizon it carries nothing.
    fn from_place(&self, depot: usize, period: u8) -> Arc
        requires depot { depot < length self.now.schedule.depots.now }
        requires period { period < 48 }
        ensures { result ≡ depot_arc (timetable_of self.now.schedule) (slice_index self.now.owed.now) depot period }
    {
        Arc {
            tail: u16::from(self.schedule.depots[depot]) * 48 + u16::from(period),
            head: OWED + depot as u16,
            capacity: if period <= self.schedule.horizon {
                self.owed[depot]
            } else {
                0
            },
        }
    }

    // The arc from what is owed at a depot to all owed.
    fn from_depot(&self, depot: usize) -> Arc
        requires { depot < length self.now.schedule.depots.now }
        ensures { result ≡ owed_arc (slice_index self.now.owed.now) depot }
    {
        Arc {
            tail: OWED + depot as u16,
            head: ALL_OWED,
            capacity: self.owed[depot],
        }
    }

    // The arc of a number, in the order of the day network.
    fn numbered(&self, number: usize) -> Arc
        requires { number < arc_count (timetable_of self.now.schedule) }
        ensures { result ≡ laid (timetable_of self.now.schedule) (departure_arc (timetable_of self.now.schedule)) (depot_arc (timetable_of self.now.schedule) (slice_index self.now.owed.now)) (owed_arc (slice_index self.now.owed.now)) number }
    {
        let lane_arcs = self.schedule.lanes.len() * 48;
        let place_arcs = lane_arcs + self.schedule.depots.len() * 48;
        if number < lane_arcs {
            self.departure(number / 48, (number % 48) as u8)
        } else if number < place_arcs {
            let at = number - lane_arcs;
            self.from_place(at / 48, (at % 48) as u8)
        } else {
            self.from_depot(number - place_arcs)
        }
    }
}

impl Schedule<'_> {
    // The place of a yard in the order of the depots.
    fn order_of(&self, yard: u8) -> Option<usize>
        ensures { MatchOption result ((d : ℕ) → d < length self.now.depots.now → depot (timetable_of self.now) d ≢ yard) (λ d. (d < length self.now.depots.now) × (depot (timetable_of self.now) d ≡ yard)) }
    {
        self.depots.iter().position(|depot| *depot == yard)
    }
}

impl<R: Ranking> DayNetwork<'_, R> {
    // The rank of a place: one more than the ranking gives it, since all owed comes first.
    fn place_rank(&self, yard: u8, period: u8) -> Option<u16>
        ensures { result ≡ place_rank (timetable_of self.now.schedule) (ranks_of R.meaning self.now) yard period }
    {
        let ranking = self.ranking.as_ref()?;
        if period > self.schedule.horizon {
            return None;
        }
        let order = self.schedule.order_of(yard)?;
        let depots = self.schedule.depots.len() as u8;
        Some(ranking.rank(depots, self.schedule.horizon, order as u8, period) + 1)
    }
}

impl<R: Ranking> Network for DayNetwork<'_, R> {
    ghost meaning = { day_of R.meaning };

    ghost proper = { day_proper R.meaning R.lawful };

    fn node_count(&self) -> usize {
        NODES
    }

    fn source(&self) -> usize {
        SOURCE.into()
    }

    fn arc_count(&self) -> usize {
        self.schedule.lanes.len() * 48 + self.schedule.depots.len() * 49
    }

    fn arc(&self, number: usize) -> Arc {
        self.numbered(number)
    }

    fn rank(&self, node: usize) -> Option<u16> {
        if node == usize::from(ALL_OWED) {
            Some(0)
        } else if node < usize::from(SOURCE) {
            self.place_rank((node / 48) as u8, (node % 48) as u8)
        } else {
            None
        }
    }
}
