// The day network of a timetable: places as nodes and departures as arcs, so that its flows are the plans. The definitions
// and the theorems stand in specs/, and each function here states theorems in its contract, so that the crate is proved
// only with them.
#![tactic(auto)]

ghost use Rattle.day_network.specs.DayTheory.{BoardCut, BuiltIsDay, DaySound, FlowDelivers, FlowQuotes, FlowServes, FlowToPlan, NetworkCut, PlanToFlow, QuoteExists, QuoteRight, Release, ReleaseFlow, ServableBrought, ServableExactly, Unservable};

// The day network is sound, and its flows that bring all owed are the plans that deliver it.
pub fn flows_are_plans()
    ensures sound { DaySound }
    ensures plan { FlowToPlan }
    ensures delivers { FlowDelivers }
    ensures flow { PlanToFlow }
{}

// The cuts of the board are cuts of the day network, as wide, and those of the network are cuts of the board, no wider.
pub fn cuts_are_board_cuts()
    ensures board { BoardCut }
    ensures network { NetworkCut }
{}

// The greatest flow says whether all owed can be delivered.
pub fn flow_says_servable()
    ensures unservable { Unservable }
    ensures brought { ServableBrought }
    ensures serves { FlowServes }
    ensures exactly { ServableExactly }
{}

// A flow that brings all owed, with its smallest cuts, is a best quote, and as lists a right one; there is one where all
// owed can be delivered.
pub fn flow_is_a_quote()
    ensures quoted { FlowQuotes }
    ensures right { QuoteRight }
    ensures exists { QuoteExists }
{}

// Where less is owed, all owed can still be delivered.
pub fn less_can_be_owed()
    ensures plan { Release }
    ensures flow { ReleaseFlow }
{}

// Lists of arcs and ranks that are the day network's number by number are the day network.
pub fn lists_are_the_network()
    ensures { BuiltIsDay }
{}
