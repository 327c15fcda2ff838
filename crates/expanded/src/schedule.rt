// A timetable as its lists lie in memory.
ghost use Rattle.std.specs.Prelude.{◌≡◌, length};
ghost use Rattle.timetable.specs.Plans.{Sound};
ghost use Rattle.expanded.specs.Lists.{timetable_by};

use timetable::Lane;

// A row of `capacities` for each lane, with a capacity for each period.
#[derive(Clone, Copy)]
pub struct Schedule<'a> {
    pub horizon: u8,
    pub origin: u8,
    pub lanes: &'a [Lane],
    pub capacities: &'a [[u16; 48]],
    pub depots: &'a [u8],
    ghost sound: { Sound (timetable_by horizon origin lanes.now capacities.now depots.now) },
    ghost rows: { length capacities.now ≡ length lanes.now },
}
