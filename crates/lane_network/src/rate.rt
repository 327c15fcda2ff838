// The standing rate.
ghost use Rattle.lane_network.specs.Lanes.{Rate};
ghost use Rattle.expanded.specs.Schedules.{timetable_of};

use crate::lanes::LaneNetwork;
use expanded::Schedule;
use flow::Arc;
use search::{NodeEntry, Visit, Work, serve};

// How many pallets a period the lanes take to the depots, if each lane takes as many in every period as in its smallest departure.
// Nothing is allocated: the lists that the search works in are of a fixed size.
pub fn standing_rate(schedule: Schedule) -> u64
    ensures { Rate (timetable_of schedule.entry) result }
{
    let network = LaneNetwork::new(schedule);
    let mut loads = [0; 96];
    let mut marks = [0; 32];
    let mut figures = [0; 1];
    let mut arcs = [Arc::default(); 96];
    let mut next_out = [0; 96];
    let mut next_in = [0; 96];
    let mut nodes = [NodeEntry::default(); 32];
    let mut visits = [Visit::default(); 32];
    let mut slots = [0; 32];
    let work = Work {
        arcs: &mut arcs,
        next_out: &mut next_out,
        next_in: &mut next_in,
        nodes: &mut nodes,
        visits: &mut visits,
        slots: &mut slots,
    };
    serve(&network, 1, &mut loads, &mut marks, &mut figures, work).unwrap();
    figures[0]
}
