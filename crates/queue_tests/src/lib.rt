// Tests of the queue, in a crate of their own, since a crate with tests is proved twice.
#![tactic(auto)]

#[cfg(test)]
mod tests {
    use queue::Queue;
    use std::process::Abort;
    use std::test::Fail;

    // A leg of a run: a lane, the period in which it leaves, and the pallets on it.
    #[derive(Clone, Copy, Debug, PartialEq, Eq)]
    struct Leg {
        lane: u8,
        period: u8,
        pallets: u32,
    }

    const NO_LEG: Leg = Leg {
        lane: 0,
        period: 0,
        pallets: 0,
    };

    // What is done with a queue, and what is answered.
    #[derive(Drop)]
    enum Deed<T> {
        Push(T, Result<(), T>),
        Pop(Option<T>),
    }

    // Does all of it in order, and compares each answer.
    fn check_all<T: Copy + Eq>(rt: &impl Abort, queue: &mut Queue<T>, deeds: &[Deed<T>]) {
        for deed in deeds {
            match deed {
                Deed::Push(item, answer) => assert!(rt; queue.push(*item) == *answer),
                Deed::Pop(answer) => assert!(rt; queue.pop() == *answer),
            }
        }
    }

    // Node numbers, round the end of the slots and back.
    #[test]
    fn first_in_first_out(rt: HostRuntime) -> Result<(), Fail> {
        let mut slots = [0u16; 3];
        let mut queue = Queue::new(&mut slots);
        assert!(rt; queue.is_empty());
        let deeds = [
            Deed::Pop(None),
            Deed::Push(7, Ok(())),
            Deed::Push(8, Ok(())),
            Deed::Pop(Some(7)),
            Deed::Push(9, Ok(())),
            Deed::Push(4095, Ok(())),
            Deed::Push(1, Err(1)),
            Deed::Pop(Some(8)),
            Deed::Push(2, Ok(())),
            Deed::Pop(Some(9)),
            Deed::Pop(Some(4095)),
            Deed::Pop(Some(2)),
            Deed::Pop(None),
        ];
        check_all(&rt, &mut queue, &deeds);
        assert!(rt; queue.is_empty());
        Ok(())
    }

    // Legs: a lane, a period and pallets each.
    #[test]
    fn legs_keep_their_order(rt: HostRuntime) -> Result<(), Fail> {
        let first = Leg {
            lane: 0,
            period: 0,
            pallets: 2,
        };
        let second = Leg {
            lane: 95,
            period: 47,
            pallets: 9999,
        };
        let mut slots = [NO_LEG; 2];
        let mut queue = Queue::new(&mut slots);
        let deeds = [
            Deed::Push(first, Ok(())),
            Deed::Push(second, Ok(())),
            Deed::Push(first, Err(first)),
            Deed::Pop(Some(first)),
            Deed::Pop(Some(second)),
            Deed::Pop(None),
        ];
        check_all(&rt, &mut queue, &deeds);
        Ok(())
    }

    // With no slot every item comes back.
    #[test]
    fn no_slots(rt: HostRuntime) -> Result<(), Fail> {
        let mut slots = [0u16; 0];
        let mut queue = Queue::new(&mut slots);
        let deeds = [Deed::Push(5, Err(5)), Deed::Pop(None)];
        check_all(&rt, &mut queue, &deeds);
        assert!(rt; queue.is_empty());
        Ok(())
    }
}
