// How what the search found is told.
ghost use Rattle.std.specs.Prelude.{◌≡◌, ℕ, suc, ◌+◌, ◌*◌, ◌<◌, ◌≤◌, drop, length, slice_index};
ghost use Rattle.expanded.specs.Schedules.{timetable_of};
ghost use Rattle.planning.specs.Marks.{mark_at};
ghost use Rattle.planning.specs.Quotes.{place_count};

use super::Planner;
use crate::copying::write_over;
use crate::marking::write_marks;
use expanded::{DayNetwork, Schedule};

impl Planner {
    // Writes what so many ranks get, all owed left out, and the marks of the places.
    pub(super) fn tell<R>(
        &self,
        day: &DayNetwork<R>,
        schedule: Schedule,
        ranks: u16,
        figures: &mut [u64],
        marks: &mut [u8],
    )
        requires day { day.now.schedule ≡ schedule }
        requires few { ranks ≤ 48 }
        requires low { (v : ℕ) → slice_index self.now.marks.items v ≤ ranks + 2 }
        requires figures { ranks ≤ length figures.old }
        requires marks { place_count schedule ≤ length marks.old }
        ensures figures { (r : ℕ) → r < ranks → slice_index figures.new r ≡ slice_index self.now.figures.items (suc r) }
        ensures marks { (y t : ℕ) → y < 32 → t ≤ schedule.entry.horizon → slice_index marks.new (y * suc schedule.entry.horizon + t) ≡ mark_at (timetable_of schedule.entry) ranks self.now.marks.items y t }
        ensures behind { drop ranks figures.new ≡ drop ranks figures.old }
        ensures past { drop (place_count schedule.entry) marks.new ≡ drop (place_count schedule.entry) marks.old }
    {
        let places = 32 * (usize::from(schedule.horizon) + 1);
        write_over(figures, &self.figures[1..usize::from(ranks) + 1]);
        write_marks(day, schedule, ranks, &self.marks, &mut marks[..places]);
    }
}
