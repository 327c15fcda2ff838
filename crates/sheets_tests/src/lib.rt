// Tests of the sheets at their bounds, in a crate of their own, since a crate with tests is proved twice. What is expected was
// worked out by hand.
#![tactic(auto)]

ghost use Rattle.std.specs.Prelude.{◌≤◌};
ghost use Rattle.board.specs.States.{plan_on, state_of};
ghost use Rattle.run_sheet.specs.Calls.{Lays};

use board::Board;
use run_sheet::RunSheet;

// What a sheet wrote is in the list that was handed in, once the sheet has ended.
pub fn laid_out(board: &Board, loads: &mut [u32])
    ensures { Lays (state_of board.now) (plan_on board.now) loads.old loads.new }
{
    RunSheet::lay(board, loads);
}

#[cfg(test)]
mod tests {
    use board::Board;
    use cut_sheet::{Inside, periods_inside};
    use ranking::DepotOrder;
    use refusals::Refusal::{self, BadHorizon, BadYard, ListTooShort};
    use run_sheet::{Leg, RunSheet, all_runs};
    use slips::moves::Act::{Book, TearUp};
    use slips::refusal::Returned;
    use slips::table::SlipTable;
    use std::alloc::Global;
    use std::process::Abort;
    use std::test::Fail;
    use timetable::Lane;

    const NO_LEG: Leg = Leg {
        lane: 9,
        period: 9,
        pallets: 9,
    };

    // A lane.
    const fn lane(from: u8, to: u8, transit: u8) -> Lane {
        Lane { from, to, transit }
    }

    // A leg.
    const fn leg(lane: u8, period: u8, pallets: u32) -> Leg {
        Leg {
            lane,
            period,
            pallets,
        }
    }

    // A board with one lane, from the origin 0 to the depot 1, that takes one period and 5 pallets.
    fn one_lane(heap: Global, horizon: u8) -> Result<Board, Fail> {
        let mut board = Board::new(heap)?;
        board.open(horizon, 0)?;
        board.add_lane(lane(0, 1, 1), 5)?;
        board.name_depot(1)?;
        Ok(board)
    }

    // A board with a lane to the depot 1, and one from there to the depot 2. The horizon is 2, so that what is at 2 left in 0.
    fn two_depots(heap: Global) -> Result<Board, Fail> {
        let mut board = Board::new(heap)?;
        board.open(2, 0)?;
        board.add_lane(lane(0, 1, 1), 5)?;
        board.add_lane(lane(1, 2, 1), 4)?;
        board.name_depot(1)?;
        board.name_depot(2)?;
        Ok(board)
    }

    // Holds pallets and books them.
    fn book(board: &mut Board, yard: u8, pallets: u16) -> Result<(), Refusal> {
        let slip = board.hold(yard, pallets)?;
        let Err(Returned { why: _, slip }) = board.spend(slip, Book) else {
            return Ok(());
        };
        SlipTable::new().spend(slip, TearUp).unwrap();
        Err(Refusal::NotAsNeeded)
    }

    #[test]
    fn empty_plan(rt: HostRuntime) -> Result<(), Fail> {
        let board = one_lane(rt.alloc(), 1)?;
        let mut loads = [7; 193];
        let mut legs = [NO_LEG; 1];
        let mut sheet = RunSheet::lay(&board, &mut loads);
        assert_eq!(rt; sheet.take_run(&mut legs), Ok(None));
        assert_eq!(rt; sheet.take_run(&mut legs), Ok(None));
        assert_eq!(rt; legs[0], NO_LEG);
        assert_eq!(rt; (loads[0], loads[191], loads[192]), (0, 0, 7));
        assert_eq!(rt; all_runs(rt.alloc(), &board)?.len(), 0);
        Ok(())
    }

    #[test]
    fn one_run(rt: HostRuntime) -> Result<(), Fail> {
        let mut board = one_lane(rt.alloc(), 1)?;
        assert_eq!(rt; book(&mut board, 1, 3), Ok(()));
        let mut loads = [7; 192];
        let mut legs = [NO_LEG; 2];
        let mut sheet = RunSheet::lay(&board, &mut loads);
        assert_eq!(rt; sheet.take_run(&mut legs), Ok(Some(1)));
        assert_eq!(rt; legs, [leg(0, 0, 3), NO_LEG]);
        assert_eq!(rt; sheet.take_run(&mut legs), Ok(None));
        assert_eq!(rt; loads[0], 0);
        Ok(())
    }

    // Of 5 pallets at the depot 1 two stay there, and three go on to 2.
    #[test]
    fn depot_passes_pallets_on(rt: HostRuntime) -> Result<(), Fail> {
        let mut board = two_depots(rt.alloc())?;
        assert_eq!(rt; book(&mut board, 2, 3), Ok(()));
        assert_eq!(rt; book(&mut board, 1, 2), Ok(()));
        let mut loads = [7; 288];
        let mut legs = [NO_LEG; 2];
        let mut sheet = RunSheet::lay(&board, &mut loads);
        let mut to_2 = 0u32;
        let mut to_1 = 0u32;
        for _ in 0..4 {
            match sheet.take_run(&mut legs) {
                Ok(Some(2)) => to_2 = to_2.saturating_add(legs[1].pallets),
                Ok(Some(1)) => to_1 = to_1.saturating_add(legs[0].pallets),
                _ => {}
            }
        }
        assert_eq!(rt; (to_1, to_2), (2, 3));
        assert_eq!(rt; sheet.take_run(&mut legs), Ok(None));
        let runs = all_runs(rt.alloc(), &board)?;
        assert!(rt; runs.len() == 2 || runs.len() == 3);
        Ok(())
    }

    // Lists that are just long enough, and lists that are one entry short: these stay as they were.
    fn check_lists(rt: &impl Abort, heap: Global, horizon: u8) -> Result<(), Fail>
        requires low { 1 ≤ horizon }
        requires high { horizon ≤ 47 }
    {
        let mut board = one_lane(heap, horizon)?;
        assert_eq!(rt; book(&mut board, 1, 3), Ok(()));
        let longest = usize::from(horizon);
        let count = 96 * (longest + 1);
        let mut loads = [7; 4608];
        let mut legs = [NO_LEG; 47];
        let mut short = RunSheet::lay(&board, &mut loads[..count - 1]);
        assert_eq!(rt; short.take_run(&mut legs), Err(ListTooShort));
        assert_eq!(rt; short.take_run(&mut legs), Err(ListTooShort));
        assert_eq!(rt; (loads[0], loads[count - 2]), (7, 7));
        let mut enough = [7; 4608];
        let mut sheet = RunSheet::lay(&board, &mut enough[..count]);
        assert_eq!(rt; sheet.take_run(&mut legs[..longest - 1]), Err(ListTooShort));
        assert_eq!(rt; legs[0], NO_LEG);
        let mut run = [NO_LEG; 47];
        assert_eq!(rt; sheet.take_run(&mut run[..longest]), Ok(Some(1)));
        assert_eq!(rt; (run[0].lane, run[0].pallets), (0, 3));
        Ok(())
    }

    #[test]
    fn lists_at_their_bounds(rt: HostRuntime) -> Result<(), Fail> {
        check_lists(&rt, rt.alloc(), 1)?;
        check_lists(&rt, rt.alloc(), 47)
    }

    // A run with as many legs as the day has periods, between two yards and at last to the depot 3.
    #[test]
    fn longest_run(rt: HostRuntime) -> Result<(), Fail> {
        let mut board = Board::new(rt.alloc())?;
        board.open(47, 0)?;
        board.add_lane(lane(0, 1, 1), 1)?;
        board.add_lane(lane(1, 2, 1), 1)?;
        board.add_lane(lane(2, 1, 1), 1)?;
        board.add_lane(lane(1, 3, 1), 0)?;
        board.add_lane(lane(2, 3, 1), 0)?;
        board.name_depot(3)?;
        board.set_departure(4, 46, 1)?;
        for period in 1..47 {
            board.set_departure(0, period, 0)?;
        }
        assert_eq!(rt; book(&mut board, 3, 1), Ok(()));
        let mut loads = [0; 4608];
        let mut legs = [NO_LEG; 47];
        let mut sheet = RunSheet::lay(&board, &mut loads);
        assert_eq!(rt; sheet.take_run(&mut legs), Ok(Some(47)));
        assert_eq!(rt;
            (legs[0], legs[1], legs[2]),
            (leg(0, 0, 1), leg(1, 1, 1), leg(2, 2, 1))
        );
        assert_eq!(rt; legs[46], leg(4, 46, 1));
        assert_eq!(rt; sheet.take_run(&mut legs), Ok(None));
        Ok(())
    }

    // Compares what a sheet tells of a yard: for a k, how many periods lie inside, and the first.
    fn check_cuts(
        rt: &impl Abort,
        horizon: u8,
        marks: &[u8],
        yard: u8,
        expected: &[(u16, u8, u8)],
    ) {
        for (k, count, first) in expected {
            let told = periods_inside(horizon, marks, yard, *k);
            let wanted = Inside {
                count: *count,
                first: *first,
            };
            assert_eq!(rt; told, Ok(wanted), "at {k}");
        }
    }

    #[test]
    fn cuts_of_two_yards(rt: HostRuntime) -> Result<(), Fail> {
        let mut marks = [0; 96];
        marks[3] = 1;
        marks[4] = 3;
        marks[5] = 2;
        marks[93] = 2;
        let first = [(0, 3, 0), (1, 2, 1), (2, 1, 1), (3, 0, 3), (65535, 0, 3)];
        check_cuts(&rt, 2, &marks, 1, &first);
        check_cuts(&rt, 2, &marks, 31, &[(0, 1, 0), (1, 1, 0), (2, 0, 3)]);
        check_cuts(&rt, 2, &marks, 0, &[(0, 0, 3)]);
        Ok(())
    }

    // The quote of the day that docs/sheets.md shows: 3 pallets are owed at the depot 3, and 3 further ones can come to 2.
    #[test]
    fn cuts_of_a_quote(rt: HostRuntime) -> Result<(), Fail> {
        let mut board = Board::new(rt.alloc())?;
        board.open(3, 0)?;
        board.add_lane(lane(0, 1, 1), 3)?;
        board.add_lane(lane(1, 2, 1), 2)?;
        board.add_lane(lane(1, 3, 1), 2)?;
        board.name_depot(2)?;
        board.name_depot(3)?;
        assert_eq!(rt; book(&mut board, 3, 3), Ok(()));
        let mut figures = [0u64; 2];
        let mut marks = [0u8; 128];
        board.quote(DepotOrder, &mut figures, &mut marks)?;
        assert_eq!(rt; figures, [3, 0]);
        let origin = [(0, 2, 0), (1, 2, 0), (2, 2, 0), (3, 0, 4)];
        check_cuts(&rt, 3, &marks, 0, &origin);
        check_cuts(&rt, 3, &marks, 1, &[(0, 2, 1), (1, 0, 4), (2, 0, 4)]);
        check_cuts(&rt, 3, &marks, 2, &[(0, 2, 2), (1, 0, 4), (2, 0, 4)]);
        check_cuts(&rt, 3, &marks, 3, &[(0, 2, 2), (1, 0, 4), (2, 0, 4)]);
        Ok(())
    }

    #[test]
    fn cuts_at_the_horizons(rt: HostRuntime) -> Result<(), Fail> {
        let marks = [255; 1536];
        let all = Inside {
            count: 48,
            first: 0,
        };
        assert_eq!(rt; periods_inside(47, &marks, 31, 254), Ok(all));
        assert_eq!(rt;
            periods_inside(47, &marks, 31, 255),
            Ok(Inside {
                count: 0,
                first: 48
            })
        );
        assert_eq!(rt;
            periods_inside(1, &marks[..64], 31, 0),
            Ok(Inside { count: 2, first: 0 })
        );
        assert_eq!(rt; periods_inside(1, &marks[..63], 31, 0), Err(ListTooShort));
        assert_eq!(rt;
            periods_inside(47, &marks[..1535], 31, 0),
            Err(ListTooShort)
        );
        assert_eq!(rt; periods_inside(47, &marks[..1535], 32, 0), Err(BadYard));
        assert_eq!(rt; periods_inside(48, &marks[..1535], 32, 0), Err(BadHorizon));
        assert_eq!(rt; periods_inside(0, &marks, 0, 0), Err(BadHorizon));
        Ok(())
    }
}
