// How the search is asked on a day network.
ghost use Rattle.std.specs.Prelude.{◌≡◌, ◌≤◌, true, false, slice_index};
ghost use Rattle.timetable.specs.Plans.{Servable};
ghost use Rattle.timetable.specs.Quotes.{all_owed};
ghost use Rattle.expanded.specs.Days.{day_of};
ghost use Rattle.expanded.specs.Schedules.{timetable_of};
ghost use Rattle.planning.specs.Found.{Found};

use super::Planner;
use crate::searching::serve_with;
use crate::sums::sum_of;
use expanded::DayNetwork;
use ranking::Ranking;

impl Planner {
    // Serves so many ranks of a day network.
    fn serve<R: Ranking>(&mut self, day: &DayNetwork<R>, ranks: u16)
        requires { ranks ≤ 49 }
        ensures { Found (day_of R.meaning day.now) ranks self.new }
    {
        serve_with(
            day,
            ranks,
            &mut self.loads,
            &mut self.marks,
            &mut self.figures,
            &mut self.arcs,
            &mut self.next_out,
            &mut self.next_in,
            &mut self.nodes,
            &mut self.visits,
            &mut self.slots,
        );
    }

    // Serves so many ranks of a day network, and says whether all owed is brought, as it is if some plan delivers it.
    pub(super) fn ask<R: Ranking>(&mut self, day: &DayNetwork<R>, owed: &[u32], ranks: u16) -> bool
        requires owed { day.now.owed.now ≡ owed.now }
        requires some { 1 ≤ ranks }
        requires few { ranks ≤ 49 }
        ensures found { Found (day_of R.meaning day.now) ranks self.new }
        ensures brought { result ≡ true → slice_index self.new.figures.items 0 ≡ all_owed (timetable_of day.now.schedule) (slice_index owed.now) }
        ensures less { result ≡ false → Servable (timetable_of day.now.schedule) (slice_index owed.now) → ⊥ }
    {
        self.serve(day, ranks);
        self.figures[0] == sum_of(owed)
    }
}
