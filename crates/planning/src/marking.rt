// The marks of places, by those of the nodes of a day network.
ghost use Rattle.std.specs.Prelude.{◌≡◌, ℕ, suc, ◌+◌, ◌*◌, ◌<◌, ◌≤◌, length, slice_index};
ghost use Rattle.expanded.specs.Schedules.{timetable_of};
ghost use Rattle.planning.specs.Marks.{mark_at};
ghost use Rattle.planning.specs.Quotes.{place_count};

use expanded::{DayNetwork, Schedule};

// The mark of a place, where there are so many ranks.
fn place_mark<R>(
    day: &DayNetwork<R>,
    schedule: Schedule,
    ranks: u16,
    found: &[u16],
    yard: u8,
    period: u8,
) -> u8
    requires day { day.now.schedule ≡ schedule }
    requires ranks { ranks ≤ 48 }
    requires found { length found.now ≡ 1554 }
    requires low { (v : ℕ) → slice_index found.now v ≤ ranks + 2 }
    requires yard { yard < 32 }
    requires period { period < 48 }
    ensures { result ≡ mark_at (timetable_of schedule.entry) ranks found.now yard period }
{
    if !day.is_live(yard, period) {
        0
    } else if yard == schedule.origin {
        ranks as u8 + 1
    } else {
        found[usize::from(yard) * 48 + usize::from(period)].saturating_sub(1) as u8
    }
}

// Writes the mark of each place of a schedule.
pub(crate) fn write_marks<R>(
    day: &DayNetwork<R>,
    schedule: Schedule,
    ranks: u16,
    found: &[u16],
    marks: &mut [u8],
)
    requires day { day.now.schedule ≡ schedule }
    requires ranks { ranks ≤ 48 }
    requires found { length found.now ≡ 1554 }
    requires low { (v : ℕ) → slice_index found.now v ≤ ranks + 2 }
    requires marks { length marks.old ≡ place_count schedule }
    ensures { (y t : ℕ) → y < 32 → t ≤ schedule.entry.horizon → slice_index marks.new (y * suc schedule.entry.horizon + t) ≡ mark_at (timetable_of schedule.entry) ranks found.now y t }
{
    let periods = usize::from(schedule.horizon) + 1;
    for (place, mark) in marks.iter_mut().enumerate() {
        let yard = (place / periods) as u8;
        let period = (place % periods) as u8;
        *mark = place_mark(day, schedule, ranks, found, yard, period);
    }
}
