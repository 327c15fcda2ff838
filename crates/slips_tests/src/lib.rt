// Tests of the slip table and of lists of slip calls, in a crate of their own, since a crate with tests is proved twice.
#![tactic(auto)]

#[cfg(test)]
mod tests {
    use slip_runs::replay::{NoMemory, Outcome, replay};
    use slip_runs::request::Answer::{Held, NoSlip, PickedUp, Refused, Spent};
    use slip_runs::request::{Answer, Request};
    use slips::moves::Act::{Book, Pin, Release, TearUp};
    use slips::moves::SlipCall::{PickUp, Spend};
    use slips::moves::SlipState::{Booked, InHand, Pinned, Released};
    use slips::moves::{Act, SlipCall, SlipState};
    use slips::refusal::SlipRefusal::{NoneLeft, NotAsNeeded};
    use slips::refusal::{Returned, SlipRefusal};
    use slips::slip::Slip;
    use slips::table::SlipTable;
    use std::alloc::Global;
    use std::test::Fail;

    // What a call is answered, and where the hold stands and what is owed right after it.
    #[derive(Clone, Copy, Debug, PartialEq, Eq)]
    struct Seen {
        answer: Result<(), SlipRefusal>,
        state: Option<SlipState>,
        owed: u32,
    }

    // Ends any slip: one in hand is released, and any other is torn up.
    fn end(table: &mut SlipTable, slip: Slip) {
        if let Err(Returned { why: _, slip }) = table.spend(slip, Release) {
            table.spend(slip, TearUp).unwrap();
        }
    }

    // What was answered. A slip that came back is ended.
    fn settle(table: &mut SlipTable, answer: Result<(), Returned>) -> Result<(), SlipRefusal> {
        let Err(Returned { why, slip }) = answer else {
            return Ok(());
        };
        end(table, slip);
        Err(why)
    }

    // A table with one hold, of 40 pallets for depot 3, and its slip.
    fn opened() -> Option<(SlipTable, Slip)> {
        let mut table = SlipTable::new();
        let slip = table.hold(3, 40).ok()?;
        Some((table, slip))
    }

    // A table, and a slip whose hold stands so in it: the table's own slip, or one with the same numbers.
    fn prepared(present: Option<SlipState>) -> Option<(SlipTable, Slip)> {
        let Some(state) = present else {
            let (_, slip) = opened()?;
            return Some((SlipTable::new(), slip));
        };
        let (mut table, own) = opened()?;
        let act = match state {
            InHand => return Some((table, own)),
            Pinned => Pin,
            Booked => Book,
            Released => Release,
        };
        let answer = table.spend(own, act);
        settle(&mut table, answer).ok()?;
        let (_, twin) = opened()?;
        Some((table, twin))
    }

    // Picks up number 0, beside a slip that is ended.
    fn pick_up(table: &mut SlipTable, beside: Slip) -> Seen {
        let gained = table.pick_up(0);
        let state = table.state_of(0);
        let owed = table.owed(3);
        end(table, beside);
        Seen {
            answer: gained.map(|slip| end(table, slip)),
            state,
            owed,
        }
    }

    // Spends a slip.
    fn spend(table: &mut SlipTable, slip: Slip, act: Act) -> Seen {
        let answer = table.spend(slip, act);
        let state = table.state_of(0);
        let owed = table.owed(3);
        Seen {
            answer: settle(table, answer),
            state,
            owed,
        }
    }

    // Makes a call with a slip whose hold stands so.
    fn attempt(present: Option<SlipState>, call: SlipCall) -> Option<Seen> {
        let (mut table, slip) = prepared(present)?;
        Some(match call {
            PickUp => pick_up(&mut table, slip),
            Spend(act) => spend(&mut table, slip, act),
        })
    }

    // A cell of the table of moves: where a hold stands, a call, its answer, and where the hold stands and what is owed
    // after it.
    type Cell = (
        Option<SlipState>,
        SlipCall,
        Result<(), SlipRefusal>,
        Option<SlipState>,
        u32,
    );

    const CELLS: [Cell; 25] = [
        (Some(InHand), Spend(Pin), Ok(()), Some(Pinned), 40),
        (Some(InHand), PickUp, Err(NotAsNeeded), Some(InHand), 40),
        (Some(InHand), Spend(Book), Ok(()), Some(Booked), 40),
        (Some(InHand), Spend(Release), Ok(()), Some(Released), 0),
        (
            Some(InHand),
            Spend(TearUp),
            Err(NotAsNeeded),
            Some(InHand),
            40,
        ),
        (Some(Pinned), Spend(Pin), Err(NotAsNeeded), Some(Pinned), 40),
        (Some(Pinned), PickUp, Ok(()), Some(InHand), 40),
        (
            Some(Pinned),
            Spend(Book),
            Err(NotAsNeeded),
            Some(Pinned),
            40,
        ),
        (
            Some(Pinned),
            Spend(Release),
            Err(NotAsNeeded),
            Some(Pinned),
            40,
        ),
        (Some(Pinned), Spend(TearUp), Ok(()), Some(Pinned), 40),
        (Some(Booked), Spend(Pin), Err(NotAsNeeded), Some(Booked), 40),
        (Some(Booked), PickUp, Err(NotAsNeeded), Some(Booked), 40),
        (
            Some(Booked),
            Spend(Book),
            Err(NotAsNeeded),
            Some(Booked),
            40,
        ),
        (
            Some(Booked),
            Spend(Release),
            Err(NotAsNeeded),
            Some(Booked),
            40,
        ),
        (Some(Booked), Spend(TearUp), Ok(()), Some(Booked), 40),
        (
            Some(Released),
            Spend(Pin),
            Err(NotAsNeeded),
            Some(Released),
            0,
        ),
        (Some(Released), PickUp, Err(NotAsNeeded), Some(Released), 0),
        (
            Some(Released),
            Spend(Book),
            Err(NotAsNeeded),
            Some(Released),
            0,
        ),
        (
            Some(Released),
            Spend(Release),
            Err(NotAsNeeded),
            Some(Released),
            0,
        ),
        (Some(Released), Spend(TearUp), Ok(()), Some(Released), 0),
        (None, Spend(Pin), Err(NotAsNeeded), None, 0),
        (None, PickUp, Err(NotAsNeeded), None, 0),
        (None, Spend(Book), Err(NotAsNeeded), None, 0),
        (None, Spend(Release), Err(NotAsNeeded), None, 0),
        (None, Spend(TearUp), Ok(()), None, 0),
    ];

    #[test]
    fn every_cell(rt: HostRuntime) -> Result<(), Fail> {
        for (present, call, answer, state, owed) in &CELLS {
            let seen = attempt(*present, *call).ok_or("no slip")?;
            let expected = Seen {
                answer: *answer,
                state: *state,
                owed: *owed,
            };
            assert_eq!(rt; seen, expected);
            if let Err(why) = seen.answer {
                assert_eq!(rt; why.number(), 17);
            }
        }
        Ok(())
    }

    #[test]
    fn refusal_numbers(rt: HostRuntime) -> Result<(), Fail> {
        assert_eq!(rt; NoneLeft.number(), 13);
        assert_eq!(rt; NotAsNeeded.number(), 17);
        Ok(())
    }

    // A slip with these numbers, of a table of its own.
    fn foreign(number: u16, depot: u8, pallets: u16) -> Option<Slip> {
        let mut table = SlipTable::new();
        for _ in 0..number {
            let slip = table.hold(9, 9).ok()?;
            end(&mut table, slip);
        }
        table.hold(depot, pallets).ok()
    }

    // What a table that has number 0 in hand, for depot 3 with 40 pallets, makes of a slip with these numbers: where it
    // says that the slip stands, and what is seen of an act with the slip.
    fn judged(number: u16, depot: u8, pallets: u16, act: Act) -> Option<(Option<SlipState>, Seen)> {
        let slip = foreign(number, depot, pallets)?;
        let mut table = SlipTable::new();
        let own = table.hold(3, 40);
        let standing = table.standing(&slip);
        let seen = spend(&mut table, slip, act);
        if let Ok(slip) = own {
            end(&mut table, slip);
        }
        Some((standing, seen))
    }

    // The numbers of a foreign slip, an act, where the slip stands, the answer, and what is owed at depot 3 then.
    type Foreign = (
        u16,
        u8,
        u16,
        Act,
        Option<SlipState>,
        Result<(), SlipRefusal>,
        u32,
    );

    const FOREIGN: [Foreign; 16] = [
        (0, 3, 40, Pin, Some(InHand), Ok(()), 40),
        (0, 3, 40, Book, Some(InHand), Ok(()), 40),
        (0, 3, 40, Release, Some(InHand), Ok(()), 0),
        (0, 3, 40, TearUp, Some(InHand), Err(NotAsNeeded), 40),
        (1, 3, 40, Pin, None, Err(NotAsNeeded), 40),
        (1, 3, 40, Book, None, Err(NotAsNeeded), 40),
        (1, 3, 40, Release, None, Err(NotAsNeeded), 40),
        (1, 3, 40, TearUp, None, Ok(()), 40),
        (0, 4, 40, Pin, None, Err(NotAsNeeded), 40),
        (0, 4, 40, Book, None, Err(NotAsNeeded), 40),
        (0, 4, 40, Release, None, Err(NotAsNeeded), 40),
        (0, 4, 40, TearUp, None, Ok(()), 40),
        (0, 3, 41, Pin, None, Err(NotAsNeeded), 40),
        (0, 3, 41, Book, None, Err(NotAsNeeded), 40),
        (0, 3, 41, Release, None, Err(NotAsNeeded), 40),
        (0, 3, 41, TearUp, None, Ok(()), 40),
    ];

    #[test]
    fn foreign_slips(rt: HostRuntime) -> Result<(), Fail> {
        for (number, depot, pallets, act, standing, answer, owed) in &FOREIGN {
            let (stood, seen) = judged(*number, *depot, *pallets, *act).ok_or("no slip")?;
            assert_eq!(rt; stood, *standing);
            assert_eq!(rt; seen.answer, *answer);
            assert_eq!(rt; seen.owed, *owed);
        }
        Ok(())
    }

    // Holds 2 pallets at depot 1 and pins the slip. What the slip has, in this order.
    fn hold_and_pin(table: &mut SlipTable) -> Result<(u16, u8, u16), SlipRefusal> {
        let slip = table.hold(1, 2)?;
        let numbers = (slip.number(), slip.depot(), slip.pallets());
        let answer = table.spend(slip, Pin);
        settle(table, answer)?;
        Ok(numbers)
    }

    // Picks up the slip of a number and releases it.
    fn free(table: &mut SlipTable, number: u16) -> Result<(), SlipRefusal> {
        let slip = table.pick_up(number)?;
        let answer = table.spend(slip, Release);
        settle(table, answer)
    }

    #[test]
    fn the_last_numbers(rt: HostRuntime) -> Result<(), Fail> {
        let mut table = SlipTable::new();
        assert_eq!(rt; free(&mut table, 0), Err(NotAsNeeded));
        assert_eq!(rt; table.state_of(0), None);
        for number in 0..512 {
            assert_eq!(rt; table.count(), number);
            assert_eq!(rt; hold_and_pin(&mut table), Ok((number, 1, 2)));
        }
        assert_eq!(rt; table.count(), 512);
        assert_eq!(rt; table.owed(1), 1024);
        assert_eq!(rt; hold_and_pin(&mut table), Err(NoneLeft));
        assert_eq!(rt; table.count(), 512);
        assert_eq!(rt; table.state_of(511), Some(Pinned));
        assert_eq!(rt; table.state_of(512), None);
        assert_eq!(rt; free(&mut table, 512), Err(NotAsNeeded));
        assert_eq!(rt; free(&mut table, 65535), Err(NotAsNeeded));
        assert_eq!(rt; free(&mut table, 511), Ok(()));
        assert_eq!(rt; table.owed(1), 1022);
        assert_eq!(rt; table.owed(2), 0);
        assert_eq!(rt; hold_and_pin(&mut table), Err(NoneLeft));
        Ok(())
    }

    // Ends the slips of a hand, and says how many there were.
    fn close(table: &mut SlipTable, mut hand: Vec<Slip>) -> usize {
        let count = hand.len();
        // Not `for slip in hand`, which asks for items that may be dropped.
        while let Some(slip) = hand.pop() {
            end(table, slip);
        }
        hand.destroy_empty();
        count
    }

    // Makes a list of requests, with a slip in the hand. What is owed at depot 3 then, how many slips are in the hand,
    // and the answers.
    fn made(
        heap: Global,
        slip: Slip,
        requests: &[Request],
    ) -> Result<(u32, usize, Vec<Answer>), &'static str> {
        let mut hand = Vec::new(heap);
        if let Err(back) = hand.push(slip) {
            end(&mut SlipTable::new(), back.value);
        }
        match replay(heap, hand, requests) {
            Ok(
                Outcome {
                    mut table,
                    hand,
                    answers,
                },
            ) => {
                let owed = table.owed(3);
                let count = close(&mut table, hand);
                Ok((owed, count, answers))
            }
            Err(NoMemory { hand }) => {
                close(&mut SlipTable::new(), hand);
                Err("no memory")
            }
        }
    }

    fn hold(depot: u8, pallets: u16) -> Request {
        Request::Hold { depot, pallets }
    }

    fn give(place: usize, act: Act) -> Request {
        Request::Give { place, act }
    }

    // The answer to a slip that was spent.
    fn spent(number: u16, depot: u8, pallets: u16) -> Answer {
        Spent {
            number,
            depot,
            pallets,
        }
    }

    #[test]
    fn a_list_of_requests(rt: HostRuntime) -> Result<(), Fail> {
        let asked = [
            hold(3, 40),
            hold(3, 2),
            give(1, Pin),
            Request::PickUp { number: 0 },
            give(2, Book),
            give(1, TearUp),
            give(1, Book),
            give(1, Book),
            give(0, Release),
            give(0, TearUp),
            Request::PickUp { number: 7 },
            hold(4, 1),
        ];
        let expected = [
            Held { number: 0 },
            Held { number: 1 },
            spent(0, 3, 40),
            PickedUp,
            spent(0, 3, 40),
            Refused(NotAsNeeded),
            spent(1, 3, 2),
            NoSlip,
            Refused(NotAsNeeded),
            spent(5, 3, 40),
            Refused(NotAsNeeded),
            Held { number: 2 },
        ];
        let slip = foreign(5, 3, 40).ok_or("no slip")?;
        let (owed, count, answers) = made(rt.alloc(), slip, &asked)?;
        assert_eq!(rt; owed, 42);
        assert_eq!(rt; count, 1);
        assert_eq!(rt; answers.as_slice(), expected.as_slice());
        Ok(())
    }
}
