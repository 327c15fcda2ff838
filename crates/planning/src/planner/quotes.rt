// How a quote is found.
ghost use Rattle.std.specs.Prelude.{length};
ghost use Rattle.planning.specs.Quotes.{Quotes};

use super::Planner;
use crate::error::QuoteError;
use expanded::{DayNetwork, Schedule};
use ranking::Ranking;

impl Planner {
    // The quote by a ranking: what each rank gets once all owed is delivered, and the mark of each place, that of the yard y in
    // the period t at y × (horizon + 1) + t.
    pub fn quote<R: Ranking + Drop>(
        &mut self,
        schedule: Schedule,
        owed: &[u32],
        ranking: R,
        figures: &mut [u64],
        marks: &mut [u8],
    ) -> Result<(), QuoteError>
        ensures { Quotes schedule.entry owed.now (R.meaning ranking (length schedule.entry.depots.now) schedule.entry.horizon) figures.old figures.new marks.old marks.new result }
    {
        let ranks = ranking.rank_count(schedule.depots.len() as u8, schedule.horizon);
        let day = DayNetwork::new(schedule, owed, Some(ranking))?;
        let places = 32 * (usize::from(schedule.horizon) + 1);
        if figures.len() < usize::from(ranks) || marks.len() < places {
            return Err(QuoteError::ListTooShort);
        }
        if !self.ask(&day, owed, ranks + 1) {
            return Err(QuoteError::Unservable);
        }
        self.tell(&day, schedule, ranks, figures, marks);
        Ok(())
    }
}
