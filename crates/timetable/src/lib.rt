// Timetables: lanes over a day of periods, what a plan over them means, and what a quote says. The definitions and the
// theorems stand in specs/, and each function here states theorems in its contract, so that the crate is proved only with them.
#![tactic(auto)]

ghost use Rattle.timetable.specs.Duality.{PlanDuality, SettledTight, TightSettled};
ghost use Rattle.timetable.specs.Example.{ExampleHolds};
ghost use Rattle.timetable.specs.Live.{OnlyLiveLoaded, TestSaysLive};
ghost use Rattle.timetable.specs.Rows.{CertifiedHolds};
ghost use Rattle.timetable.specs.Unique.{FiguresUnique, MarksLive, MarksNested, RightUnique};

// Yards are numbered up to the last, and periods too; a board has so many lanes and so many depots at most.
pub const LAST_YARD: u8 = 31;

pub const LAST_PERIOD: u8 = 47;

pub const MOST_LANES: usize = 96;

pub const MOST_DEPOTS: usize = 16;

// A lane takes pallets from one yard to another, and they are `transit` periods on the way.
#[derive(Clone, Copy, Debug, PartialEq, Eq)]
pub struct Lane {
    pub from: u8,
    pub to: u8,
    pub transit: u8,
}

// The computed test of live places says what the distances say, and no feasible plan loads a departure that is not live.
pub fn live_places()
    ensures test { TestSaysLive }
    ensures loaded { OnlyLiveLoaded }
{}

// No plan brings more than a cut is wide, and a plan fills just those cuts that nothing more can leave.
pub fn plan_duality()
    ensures bound { PlanDuality }
    ensures tight { TightSettled }
    ensures settled { SettledTight }
{}

// Best figures are the only ones, two right quotes agree, the cuts that marks give are nested, and only live places are marked.
pub fn one_right_quote()
    ensures figures { FiguresUnique }
    ensures unique { RightUnique }
    ensures nested { MarksNested }
    ensures live { MarksLive }
{}

// A test that computes: a row of figures that passes it holds.
pub fn row_checker()
    ensures { CertifiedHolds }
{}

// The rows of the example, by the checker.
pub fn example_holds()
    ensures { ExampleHolds }
{}
