// Tests of the board's calls and questions, in a crate of their own, since a crate with tests is proved twice. What is expected was
// worked out by hand. What a day file can ask for, figures and marks of quotes among it, is tried by the days in examples/days.
#![tactic(auto)]

#[cfg(test)]
mod tests {
    use board::Board;
    use ranking::DepotOrder;
    use refusals::Refusal::{
        self, BadCapacity, BadHorizon, BadYard, ListTooShort, NoPlan, NotAsNeeded,
    };
    use slips::moves::Act::{self, Book, Pin, Release, TearUp};
    use slips::moves::SlipState::{Booked, InHand, Pinned, Released};
    use slips::refusal::Returned;
    use slips::slip::Slip;
    use slips::table::SlipTable;
    use std::alloc::Global;
    use std::test::Fail;
    use timetable::Lane;

    // A lane.
    const fn lane(from: u8, to: u8, transit: u8) -> Lane {
        Lane { from, to, transit }
    }

    // A board with one lane, from the origin 0 to the depot 1, that takes one period.
    fn one_lane(heap: Global, horizon: u8, capacity: u16) -> Result<Board, Fail> {
        let mut board = Board::new(heap)?;
        board.open(horizon, 0)?;
        board.add_lane(lane(0, 1, 1), capacity)?;
        board.name_depot(1)?;
        Ok(board)
    }

    // A board with three lanes, one from the origin 0 to the yard 1, and from there one to each of the depots 2 and 3.
    fn three_lanes(heap: Global, horizon: u8) -> Result<Board, Fail> {
        let mut board = Board::new(heap)?;
        board.open(horizon, 0)?;
        board.add_lane(lane(0, 1, 1), 3)?;
        board.add_lane(lane(1, 2, 1), 2)?;
        board.add_lane(lane(1, 3, 1), 2)?;
        board.name_depot(2)?;
        board.name_depot(3)?;
        Ok(board)
    }

    // Whether a slip was taken. One that came back is torn up, on a table that does not have it.
    fn taken(spent: Result<(), Returned>) -> Result<(), Refusal> {
        let Err(Returned { why: _, slip }) = spent else {
            return Ok(());
        };
        SlipTable::new().spend(slip, TearUp).unwrap();
        Err(NotAsNeeded)
    }

    // The slip, if this cannot be done with it.
    fn back(board: &mut Board, slip: Slip, act: Act) -> Option<Slip> {
        match board.spend(slip, act) {
            Ok(()) => None,
            Err(Returned { why: _, slip }) => Some(slip),
        }
    }

    // Holds pallets and does this with the slip. The slip's number.
    fn hold(board: &mut Board, yard: u8, pallets: u16, act: Act) -> Result<u16, Refusal> {
        let slip = board.hold(yard, pallets)?;
        let number = slip.number();
        taken(board.spend(slip, act))?;
        Ok(number)
    }

    // Picks up the slip of a number and does this with it.
    fn pick_up(board: &mut Board, number: u16, act: Act) -> Result<(), Refusal> {
        let slip = board.pick_up(number)?;
        taken(board.spend(slip, act))
    }

    #[test]
    fn horizon_and_origin(rt: HostRuntime) -> Result<(), Fail> {
        let mut board = Board::new(rt.alloc())?;
        assert_eq!(rt; (board.horizon(), board.origin()), (1, 0));
        assert_eq!(rt; board.open(47, 31), Ok(()));
        assert_eq!(rt; board.open(0, 0), Err(BadHorizon));
        assert_eq!(rt; board.open(48, 32), Err(BadHorizon));
        assert_eq!(rt; board.open(1, 32), Err(BadYard));
        assert_eq!(rt; (board.horizon(), board.origin()), (47, 31));
        assert_eq!(rt; board.open(1, 0), Ok(()));
        assert_eq!(rt; (board.horizon(), board.origin()), (1, 0));
        Ok(())
    }

    #[test]
    fn capacities(rt: HostRuntime) -> Result<(), Fail> {
        let mut board = one_lane(rt.alloc(), 3, 9999)?;
        assert_eq!(rt; board.add_lane(lane(0, 1, 1), 10000), Err(BadCapacity));
        assert_eq!(rt; board.lanes().len(), 1);
        assert_eq!(rt; board.set_departure(0, 1, 10000), Err(BadCapacity));
        assert_eq!(rt; board.capacity(0, 1), Some(9999));
        assert_eq!(rt; board.set_departure(0, 1, 0), Ok(()));
        assert_eq!(rt; board.set_departure(0, 2, 9999), Ok(()));
        let told = [0, 1, 2, 3].map(|period| board.capacity(0, period));
        assert_eq!(rt; told, [Some(9999), Some(0), Some(9999), None]);
        Ok(())
    }

    #[test]
    fn lists_too_short(rt: HostRuntime) -> Result<(), Fail> {
        let mut board = three_lanes(rt.alloc(), 3)?;
        let mut figures = [99; 2];
        let mut marks = [99; 128];
        let short_figures = board.quote(DepotOrder, &mut figures[..1], &mut marks);
        assert_eq!(rt; short_figures, Err(ListTooShort));
        let short_marks = board.quote(DepotOrder, &mut figures, &mut marks[..127]);
        assert_eq!(rt; short_marks, Err(ListTooShort));
        assert_eq!(rt; figures, [99; 2]);
        assert!(rt; marks.iter().all(|mark| *mark == 99));
        assert_eq!(rt; board.quote(DepotOrder, &mut figures, &mut marks), Ok(()));
        assert_eq!(rt; figures, [4, 2]);
        Ok(())
    }

    #[test]
    fn release_frees(rt: HostRuntime) -> Result<(), Fail> {
        let mut board = one_lane(rt.alloc(), 1, 5)?;
        assert_eq!(rt; hold(&mut board, 1, 5, Pin), Ok(0));
        assert_eq!(rt; hold(&mut board, 1, 1, Book), Err(NoPlan));
        assert_eq!(rt; board.set_departure(0, 0, 4), Err(NoPlan));
        assert_eq!(rt; pick_up(&mut board, 0, Release), Ok(()));
        assert_eq!(rt; (board.owed(1), board.load(0, 0)), (0, Some(0)));
        assert_eq!(rt; board.slip_state(0), Some(Released));
        assert_eq!(rt; board.set_departure(0, 0, 4), Ok(()));
        assert_eq!(rt; hold(&mut board, 1, 5, Book), Err(NoPlan));
        assert_eq!(rt; hold(&mut board, 1, 4, Book), Ok(1));
        Ok(())
    }

    #[test]
    fn slip_picked_up_twice(rt: HostRuntime) -> Result<(), Fail> {
        let mut board = one_lane(rt.alloc(), 1, 5)?;
        assert_eq!(rt; pick_up(&mut board, 0, Book), Err(NotAsNeeded));
        assert_eq!(rt; hold(&mut board, 1, 2, Pin), Ok(0));
        assert_eq!(rt; board.slip_state(0), Some(Pinned));
        let slip = board.pick_up(0)?;
        assert_eq!(rt; (slip.number(), slip.depot(), slip.pallets()), (0, 1, 2));
        assert_eq!(rt; pick_up(&mut board, 0, Book), Err(NotAsNeeded));
        assert_eq!(rt; board.slip_state(0), Some(InHand));
        assert_eq!(rt; taken(board.spend(slip, Book)), Ok(()));
        assert_eq!(rt; pick_up(&mut board, 0, Release), Err(NotAsNeeded));
        assert_eq!(rt; (board.slip_state(0), board.owed(1)), (Some(Booked), 2));
        Ok(())
    }

    // A slip that has the number of a hold on this board, and other pallets.
    #[test]
    fn slip_of_another_board(rt: HostRuntime) -> Result<(), Fail> {
        let mut board = one_lane(rt.alloc(), 1, 9)?;
        assert_eq!(rt; hold(&mut board, 1, 4, Pin), Ok(0));
        let slip = one_lane(rt.alloc(), 1, 9)?.hold(1, 5)?;
        let slip = back(&mut board, slip, Book).ok_or("booked")?;
        let slip = back(&mut board, slip, Release).ok_or("released")?;
        let slip = back(&mut board, slip, Pin).ok_or("pinned")?;
        assert_eq!(rt; taken(board.spend(slip, TearUp)), Ok(()));
        assert_eq!(rt; (board.slip_state(0), board.owed(1)), (Some(Pinned), 4));
        assert_eq!(rt; board.load(0, 0), Some(4));
        assert_eq!(rt; pick_up(&mut board, 0, Book), Ok(()));
        Ok(())
    }

    // The lane to the yard 1 takes 3 pallets, and 1 where its smallest departure is lowered to that.
    #[test]
    fn standing_rates(rt: HostRuntime) -> Result<(), Fail> {
        let mut board = three_lanes(rt.alloc(), 3)?;
        assert_eq!(rt; board.standing_rate(), 3);
        assert_eq!(rt; board.set_departure(0, 1, 1), Ok(()));
        assert_eq!(rt; board.standing_rate(), 1);
        board.open(3, 0)?;
        assert_eq!(rt; board.standing_rate(), 0);
        Ok(())
    }

    // A board that is opened again has no lane, no depot and no hold of the day before.
    #[test]
    fn opened_again(rt: HostRuntime) -> Result<(), Fail> {
        let mut board = one_lane(rt.alloc(), 1, 5)?;
        assert_eq!(rt; hold(&mut board, 1, 5, Book), Ok(0));
        assert_eq!(rt; board.open(1, 0), Ok(()));
        assert_eq!(rt; (board.lanes().len(), board.depots().len()), (0, 0));
        assert_eq!(rt; (board.owed(1), board.slip_state(0)), (0, None));
        assert_eq!(rt; board.load(0, 0), None);
        assert_eq!(rt; board.add_lane(lane(0, 1, 1), 5), Ok(0));
        assert_eq!(rt; board.load(0, 0), Some(0));
        assert_eq!(rt; board.name_depot(1), Ok(0));
        assert_eq!(rt; hold(&mut board, 1, 5, Book), Ok(0));
        Ok(())
    }
}
