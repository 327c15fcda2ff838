// A day performed on a board of its own, and the line of each quote. What is refused changes nothing and gives no line.
ghost use Rattle.std.specs.Prelude.{◌≢◌};
ghost use Rattle.slips.specs.declared.moves.Act.TheVariants.{TearUp};

use board::Board;
use dayfile::reader::Reader;
use dayfile::record::Record;
use ranking::{DepotOrder, PeriodOrder, Ranking};
use slips::moves::Act;
use std::alloc::{AllocError, Global};
use timetable::Lane;

// Whether a record has opened the board, and the board.
#[derive(Drop)]
struct Day {
    opened: bool,
    board: Board,
}

impl Day {
    // Performs a record, and gives the marks if it is a quote that is not turned away.
    fn perform(&mut self, entry: Record) -> Option<[u8; 1536]> {
        if let Record::Open { horizon, origin } = entry {
            if !self.opened {
                self.opened = self.board.open(horizon, origin).is_ok();
            }
            return None;
        }
        if !self.opened {
            return None;
        }
        match entry {
            Record::Quote { ranking: 0 } => Some(self.marks(DepotOrder)),
            Record::Quote { ranking: 1 } => Some(self.marks(PeriodOrder)),
            _ => {
                self.change(entry);
                None
            }
        }
    }

    // Performs a record that changes an open board.
    fn change(&mut self, entry: Record) {
        match entry {
            Record::Lane {
                from,
                to,
                transit,
                capacity,
            } => {
                let _ = self.board.add_lane(Lane { from, to, transit }, capacity);
            }
            Record::Depot { yard } => {
                let _ = self.board.name_depot(yard);
            }
            Record::Departure {
                lane,
                period,
                capacity,
            } => {
                let _ = self.board.set_departure(lane, period, capacity);
            }
            Record::Hold { yard, pallets } => self.hold(yard, pallets),
            Record::Book { slip } => self.spend(slip, Act::Book),
            Record::Release { slip } => self.spend(slip, Act::Release),
            _ => (),
        }
    }

    // Holds pallets, and pins the slip at once.
    fn hold(&mut self, yard: u8, pallets: u16) {
        if let Ok(slip) = self.board.hold(yard, pallets) {
            self.board.spend(slip, Act::Pin).unwrap();
        }
    }

    // Picks up the slip of a number, and spends it at once.
    fn spend(&mut self, number: u16, act: Act)
        requires { act ≢ TearUp }
    {
        if let Ok(slip) = self.board.pick_up(number) {
            self.board.spend(slip, act).unwrap();
        }
    }

    // The marks of a quote.
    fn marks<R: Ranking + Drop>(&mut self, ranking: R) -> [u8; 1536] {
        let mut marks = [0; 1536];
        self.board.quote(ranking, &mut [0; 48], &mut marks).unwrap();
        marks
    }
}

// The line of a quote, with the number of its record.
fn line(heap: Global, nth: usize, horizon: u8, marks: &[u8]) -> Result<String, AllocError> {
    let mut text = format!(in heap; "{nth}")?;
    for (at, mark) in marks.iter().enumerate() {
        let periods = usize::from(horizon) + 1;
        if *mark > 0 {
            write!(text, " {}@{}:{mark}", at / periods, at % periods)?;
        }
    }
    Ok(text)
}

// The lines of the day whose file this is, as far as it can be read.
pub(crate) fn marks_of_day(heap: Global, file: &[u8]) -> Result<String, AllocError> {
    let mut out = String::new(heap);
    let mut reader = Reader::new(file);
    let mut day = Day {
        opened: false,
        board: Board::new(heap)?,
    };
    // There are fewer records than bytes.
    for _ in file {
        let nth = reader.position().nth;
        let Ok(Some(entry)) = reader.next() else {
            break;
        };
        if let Some(marks) = day.perform(entry) {
            out.push_str(line(heap, nth, day.board.horizon(), &marks)?.as_str())?;
            out.push('\n')?;
        }
    }
    Ok(out)
}
