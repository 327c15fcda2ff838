// How records are performed, one by one.
ghost use Rattle.std.specs.Prelude.{◌≡◌, ◌≢◌, Some, None};
ghost use Rattle.slips.specs.declared.moves.Act.TheVariants.{TearUp};
ghost use Rattle.dayfile.specs.Records.{view};
ghost use Rattle.board.specs.Calls.{Adds, Names, Opens, Sets};
ghost use Rattle.session.specs.Asking.{HoldsPinned, SpendsPicked};
ghost use Rattle.session.specs.Days.{day_of, name_of, opened_as, with_board};
ghost use Rattle.session.specs.Performing.{Called, InTurn, NamesYard, Performs, QuotesBy, out_of_turn, ranking_of};
ghost use Rattle.session.specs.Replies.{depot_order, done, lane_number, slip_number, told};

use super::Session;
use crate::asking::{hold_pinned, quote_figures, spend_picked};
use crate::fault::DayFault;
use crate::reply::Reply;
use dayfile::fault::{Position, RecordFault};
use dayfile::record::Record;
use ranking::{DepotOrder, PeriodOrder};
use refusals::Refusal;
use slips::moves::Act;
use timetable::{LAST_YARD, Lane};

impl<'a> Session<'a> {
    // Performs a record, which begins at a position, and says what it is answered. A record that is turned away changes nothing.
    pub fn perform(&mut self, entry: Record<'a>, at: Position) -> Result<Reply<'a>, DayFault>
        ensures { Performs (day_of self.old) (view entry.entry) at (told result) (day_of self.new) }
    {
        if self.is_out_of_turn(entry) {
            return Err(RecordFault::OutOfTurn(at).into());
        }
        self.take_turn(entry, at)
    }

    // Performs a record that is in its turn.
    fn take_turn(&mut self, entry: Record<'a>, at: Position) -> Result<Reply<'a>, DayFault>
        ensures { InTurn (view entry.entry) (day_of self.old) at (told result) (day_of self.new) }
    {
        match entry {
            Record::Open { horizon, origin } => self.open(horizon, origin, at),
            Record::YardName { yard, name, .. } => self.name_yard(yard, name, at),
            Record::Lane {
                from,
                to,
                transit,
                capacity,
            } => self.add_lane(Lane { from, to, transit }, capacity, at),
            Record::Depot { yard } => self.name_depot(yard, at),
            Record::Departure {
                lane,
                period,
                capacity,
            } => self.set_departure(lane, period, capacity, at),
            Record::Hold { yard, pallets } => self.hold(yard, pallets, at),
            Record::Book { slip } => self.spend(slip, Act::Book, at),
            Record::Release { slip } => self.spend(slip, Act::Release, at),
            Record::Quote { ranking } => self.quote(ranking, at),
            Record::RunSheet => Ok(Reply::Done),
        }
    }

    // Whether the record opens an open board, or asks for anything else of one that is not open.
    fn is_out_of_turn(&self, entry: Record) -> bool
        ensures { result ≡ out_of_turn self.now.opened (view entry.entry) }
    {
        match entry {
            Record::Open { .. } => self.opened,
            _ => !self.opened,
        }
    }

    // HZ: the board is opened.
    #[tactic(auto, unfolding(crate::specs::Performing::Called))]
    fn open(&mut self, horizon: u8, origin: u8, at: Position) -> Result<Reply<'a>, DayFault>
        ensures { Called (Opens (day_of self.old).board horizon origin) (λ x. done) (opened_as (day_of self.old)) (day_of self.old) at (told result) (day_of self.new) }
    {
        self.board
            .open(horizon, origin)
            .map_err(|why| DayFault::Board { why, at })?;
        self.opened = true;
        Ok(Reply::Done)
    }

    // YN: a yard is named, or named again.
    #[tactic(auto, unfolding(crate::specs::Performing::NamesYard))]
    fn name_yard(&mut self, yard: u8, name: &'a [u8], at: Position) -> Result<Reply<'a>, DayFault>
        ensures { NamesYard (day_of self.old) yard name.entry.now at (told result) (day_of self.new) }
    {
        if yard > LAST_YARD {
            let why = Refusal::BadYard;
            return Err(DayFault::Board { why, at });
        }
        self.names.set(yard, name);
        Ok(Reply::Done)
    }

    // LN: a lane is added.
    #[tactic(auto, unfolding(crate::specs::Performing::Called))]
    fn add_lane(&mut self, lane: Lane, capacity: u16, at: Position) -> Result<Reply<'a>, DayFault>
        ensures { Called (Adds (day_of self.old).board lane capacity) lane_number (with_board (day_of self.old)) (day_of self.old) at (told result) (day_of self.new) }
    {
        let number = self
            .board
            .add_lane(lane, capacity)
            .map_err(|why| DayFault::Board { why, at })?;
        Ok(Reply::Lane(number))
    }

    // DP: a depot is named.
    #[tactic(auto, unfolding(crate::specs::Performing::Called))]
    fn name_depot(&mut self, yard: u8, at: Position) -> Result<Reply<'a>, DayFault>
        ensures { Called (Names (day_of self.old).board yard) (λ n. depot_order n (name_of (day_of self.old) yard)) (with_board (day_of self.old)) (day_of self.old) at (told result) (day_of self.new) }
    {
        let order = self
            .board
            .name_depot(yard)
            .map_err(|why| DayFault::Board { why, at })?;
        let name = self.names.of(yard);
        Ok(Reply::Depot { order, name })
    }

    // SD: the capacity of a departure is set.
    #[tactic(auto, unfolding(crate::specs::Performing::Called))]
    fn set_departure(
        &mut self,
        lane: u8,
        period: u8,
        capacity: u16,
        at: Position,
    ) -> Result<Reply<'a>, DayFault>
        ensures { Called (Sets (day_of self.old).board lane period capacity) (λ x. done) (with_board (day_of self.old)) (day_of self.old) at (told result) (day_of self.new) }
    {
        self.board
            .set_departure(lane, period, capacity)
            .map_err(|why| DayFault::Board { why, at })?;
        Ok(Reply::Done)
    }

    // HD: pallets are held, and the slip is pinned up.
    #[tactic(auto, unfolding(crate::specs::Performing::Called))]
    fn hold(&mut self, yard: u8, pallets: u16, at: Position) -> Result<Reply<'a>, DayFault>
        ensures { Called (HoldsPinned (day_of self.old).board yard pallets) slip_number (with_board (day_of self.old)) (day_of self.old) at (told result) (day_of self.new) }
    {
        let number = hold_pinned(&mut self.board, yard, pallets).map_err(|why| DayFault::Board {
            why,
            at,
        })?;
        Ok(Reply::Slip(number))
    }

    // BK and RL: the slip of a number is picked up, and booked or released.
    #[tactic(auto, unfolding(crate::specs::Performing::Called))]
    fn spend(&mut self, number: u16, act: Act, at: Position) -> Result<Reply<'a>, DayFault>
        requires { act ≢ TearUp }
        ensures { Called (SpendsPicked (day_of self.old).board number act) (λ x. done) (with_board (day_of self.old)) (day_of self.old) at (told result) (day_of self.new) }
    {
        spend_picked(&mut self.board, number, act).map_err(|why| DayFault::Board { why, at })?;
        Ok(Reply::Done)
    }

    // QT: a quote in depot order or in period order.
    #[tactic(auto, unfolding(crate::specs::Performing::QuotesBy))]
    fn quote(&mut self, ranking: u8, at: Position) -> Result<Reply<'a>, DayFault>
        ensures { QuotesBy (ranking_of (day_of self.old).board ranking) (day_of self.old) at (told result) (day_of self.new) }
    {
        match ranking {
            0 => Ok(Reply::Figures(quote_figures(&mut self.board, DepotOrder))),
            1 => Ok(Reply::Figures(quote_figures(&mut self.board, PeriodOrder))),
            _ => Err(RecordFault::NoRanking(at).into()),
        }
    }
}
