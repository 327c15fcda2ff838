// Tests of the lane network and of the standing rate, in a crate of their own, since a crate with tests is proved twice. What is
// expected was worked out by hand.
#![tactic(auto)]

ghost use Rattle.std.specs.Prelude.{IsTrue};
ghost use Rattle.expanded.specs.Checker.{is_schedule};

#[cfg(test)]
mod tests {
    use expanded::Schedule;
    use lane_network::{LaneNetwork, standing_rate};
    use network::Network;
    use std::test::Fail;
    use timetable::Lane;

    // Lanes from the origin 0.
    const TO_1: Lane = Lane {
        from: 0,
        to: 1,
        transit: 1,
    };

    const TO_2: Lane = Lane {
        from: 0,
        to: 2,
        transit: 3,
    };

    // Lanes that go on.
    const FROM_1_TO_2: Lane = Lane {
        from: 1,
        to: 2,
        transit: 2,
    };

    const FROM_1_TO_3: Lane = Lane {
        from: 1,
        to: 3,
        transit: 1,
    };

    const FROM_2_TO_3: Lane = Lane {
        from: 2,
        to: 3,
        transit: 1,
    };

    // A timetable, once the test that computes has passed it.
    fn schedule<'a>(
        horizon: u8,
        origin: u8,
        lanes: &'a [Lane],
        capacities: &'a [[u16; 48]],
        depots: &'a [u8],
    ) -> Schedule<'a>
        requires { IsTrue (is_schedule horizon origin lanes.now capacities.now depots.now) }
    {
        Schedule {
            horizon,
            origin,
            lanes,
            capacities,
            depots,
        }
    }

    #[test]
    fn narrower_of_two_lanes_in_a_row(rt: HostRuntime) -> Result<(), Fail> {
        let lanes = [TO_1, FROM_1_TO_2];
        let narrow_end = schedule(9, 0, &lanes, &[[5; 48], [3; 48]], &[2]);
        assert_eq!(rt; standing_rate(narrow_end), 3);
        let narrow_start = schedule(9, 0, &lanes, &[[4; 48], [6; 48]], &[2]);
        assert_eq!(rt; standing_rate(narrow_start), 4);
        Ok(())
    }

    // The lane departs in the periods 0 to 8.
    #[test]
    fn lowered_departure(rt: HostRuntime) -> Result<(), Fail> {
        let mut rows = [[10; 48]];
        rows[0][9] = 3;
        let past = schedule(9, 0, &[TO_1], &rows, &[1]);
        assert_eq!(rt; standing_rate(past), 10);
        rows[0][8] = 4;
        let last = schedule(9, 0, &[TO_1], &rows, &[1]);
        assert_eq!(rt; standing_rate(last), 4);
        rows[0][2] = 3;
        let lowered = schedule(9, 0, &[TO_1], &rows, &[1]);
        assert_eq!(rt; standing_rate(lowered), 3);
        rows[0][0] = 0;
        let closed = schedule(9, 0, &[TO_1], &rows, &[1]);
        assert_eq!(rt; standing_rate(closed), 0);
        Ok(())
    }

    // A lane of 3 periods departs once up to the horizon 3, and never up to the horizon 2.
    #[test]
    fn lane_longer_than_the_horizon(rt: HostRuntime) -> Result<(), Fail> {
        let mut rows = [[1; 48]];
        rows[0][0] = 7;
        let once = schedule(3, 0, &[TO_2], &rows, &[2]);
        assert_eq!(rt; standing_rate(once), 7);
        let never = schedule(2, 0, &[TO_2], &rows, &[2]);
        assert_eq!(rt; standing_rate(never), 0);
        Ok(())
    }

    #[test]
    fn no_depots_and_no_lanes(rt: HostRuntime) -> Result<(), Fail> {
        let no_depots = schedule(9, 0, &[TO_1], &[[5; 48]], &[]);
        assert_eq!(rt; standing_rate(no_depots), 0);
        let no_lanes = schedule(9, 31, &[], &[], &[0]);
        assert_eq!(rt; standing_rate(no_lanes), 0);
        Ok(())
    }

    // Two roads lead to the yard 3: 4 can come by the yard 1, and 3 by the yard 2, to which 6 can come.
    #[test]
    fn roads_that_join(rt: HostRuntime) -> Result<(), Fail> {
        let lanes = [TO_1, TO_2, FROM_1_TO_3, FROM_2_TO_3];
        let capacities = [[4; 48], [6; 48], [10; 48], [3; 48]];
        let one_depot = schedule(9, 0, &lanes, &capacities, &[3]);
        assert_eq!(rt; standing_rate(one_depot), 7);
        let two_depots = schedule(9, 0, &lanes, &capacities, &[3, 2]);
        assert_eq!(rt; standing_rate(two_depots), 10);
        Ok(())
    }

    #[test]
    fn depot_before_another(rt: HostRuntime) -> Result<(), Fail> {
        let lanes = [TO_1, FROM_1_TO_2];
        let timetable = schedule(9, 0, &lanes, &[[5; 48], [3; 48]], &[2, 1]);
        assert_eq!(rt; standing_rate(timetable), 5);
        Ok(())
    }

    #[test]
    fn lanes_as_arcs(rt: HostRuntime) -> Result<(), Fail> {
        let lanes = [FROM_1_TO_3, TO_1];
        let mut rows = [[6; 48], [5; 48]];
        rows[0][1] = 2;
        let network = LaneNetwork::new(schedule(9, 0, &lanes, &rows, &[3]));
        assert_eq!(rt; (network.node_count(), network.source()), (32, 0));
        assert_eq!(rt; network.arc_count(), 2);
        let first = network.arc(0);
        assert_eq!(rt; (first.tail, first.head, first.capacity), (1, 3, 2));
        let second = network.arc(1);
        assert_eq!(rt; (second.tail, second.head, second.capacity), (0, 1, 5));
        assert_eq!(rt; (network.rank(3), network.rank(1)), (Some(0), None));
        Ok(())
    }

    // As many lanes as there can be, each as wide as it can be.
    #[test]
    fn all_lanes(rt: HostRuntime) -> Result<(), Fail> {
        let timetable = schedule(47, 0, &[TO_1; 96], &[[9999; 48]; 96], &[1]);
        assert_eq!(rt; standing_rate(timetable), 959904);
        Ok(())
    }
}
