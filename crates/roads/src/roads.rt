// The roads of a board. Their methods are in the modules below, since their contracts speak of them.
ghost use Rattle.std.specs.Prelude.{◌≡◌, ◌≤◌, length, vec_capacity};
ghost use Rattle.timetable.specs.Plans.{Sound};
ghost use Rattle.expanded.specs.Lists.{timetable_by};

use timetable::Lane;

mod calls;
mod questions;

// The lists have room for all that they will ever hold: 96 lanes and 16 depots.
#[derive(Drop)]
pub struct Roads {
    horizon: u8,
    origin: u8,
    lanes: Vec<Lane>,
    capacities: Vec<[u16; 48]>,
    depots: Vec<u8>,
    ghost sound: { Sound (timetable_by horizon origin lanes.items capacities.items depots.items) },
    ghost rows: { length capacities.items ≡ length lanes.items },
    ghost lane_room: { 96 ≤ vec_capacity lanes },
    ghost row_room: { 96 ≤ vec_capacity capacities },
    ghost depot_room: { 16 ≤ vec_capacity depots },
}
