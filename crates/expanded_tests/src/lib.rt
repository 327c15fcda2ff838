// Tests of the day network, in a crate of their own, since a crate with tests is proved twice. What is expected was worked out
// by hand: a place is the node yard × 48 + period, all origin places are the node 1536, what is owed at the depots is from 1537
// on, and all owed is 1553.
#![tactic(auto)]

ghost use Rattle.std.specs.Prelude.{IsTrue};
ghost use Rattle.expanded.specs.Checker.{is_schedule};

#[cfg(test)]
mod tests {
    use expanded::{DayNetwork, OwedError, Schedule};
    use flow::Arc;
    use network::Network;
    use ranking::{DepotOrder, PeriodOrder};
    use std::process::Abort;
    use std::test::Fail;
    use timetable::Lane;

    const TO_1: Lane = Lane {
        from: 0,
        to: 1,
        transit: 1,
    };

    const FROM_1_TO_2: Lane = Lane {
        from: 1,
        to: 2,
        transit: 1,
    };

    const LONGEST: Lane = Lane {
        from: 0,
        to: 1,
        transit: 47,
    };

    // A timetable, once the test that computes has passed it.
    fn schedule<'a>(
        horizon: u8,
        origin: u8,
        lanes: &'a [Lane],
        capacities: &'a [[u16; 48]],
        depots: &'a [u8],
    ) -> Schedule<'a>
        requires { IsTrue (is_schedule horizon origin lanes.now capacities.now depots.now) }
    {
        Schedule {
            horizon,
            origin,
            lanes,
            capacities,
            depots,
        }
    }

    // What is wrong with what is owed, if anything is.
    fn fault_of(timetable: Schedule, owed: &[u32]) -> Option<OwedError> {
        DayNetwork::new(timetable, owed, Some(DepotOrder)).err()
    }

    // The arc of a number, if there is one: its tail, its head and its capacity.
    fn arc_at<N: Network>(network: &N, number: usize) -> Option<(u16, u16, u32)> {
        if number < network.arc_count() {
            let Arc {
                tail,
                head,
                capacity,
            } = network.arc(number);
            Some((tail, head, capacity))
        } else {
            None
        }
    }

    // The rank of a node, if it is a node and has one.
    fn rank_at<N: Network>(network: &N, node: usize) -> Option<u16> {
        if node < network.node_count() {
            network.rank(node)
        } else {
            None
        }
    }

    // Compares the arcs of a lane: from its first departure on they are these, and the others are no departures.
    fn check_lane<N: Network>(
        rt: &impl Abort,
        network: &N,
        lane: u8,
        first: u8,
        departures: &[(u16, u16, u32)],
    ) {
        for period in 0..48usize {
            let expected = match period.checked_sub(usize::from(first)) {
                Some(number) if number < departures.len() => departures[number],
                _ => (1536, 1536, 0),
            };
            let number = usize::from(lane) * 48 + period;
            assert_eq!(rt; arc_at(network, number), Some(expected));
        }
    }

    // Compares the arcs from the places of a yard to what is owed at its depot, the first of them of this number.
    fn check_places<N: Network>(
        rt: &impl Abort,
        network: &N,
        first: u16,
        yard: u8,
        horizon: u8,
        depot: u8,
        owed: u32,
    ) {
        for period in 0..48u8 {
            let place = u16::from(yard) * 48 + u16::from(period);
            let capacity = if period <= horizon { owed } else { 0 };
            let expected = (place, 1537 + u16::from(depot), capacity);
            let number = usize::from(first) + usize::from(period);
            assert_eq!(rt; arc_at(network, number), Some(expected));
        }
    }

    // Compares the ranks of the places of a yard: up to the horizon they are these, and past it there are none.
    fn check_ranks<N: Network>(rt: &impl Abort, network: &N, yard: u8, ranks: &[u16]) {
        for period in 0..48usize {
            let node = usize::from(yard) * 48 + period;
            assert_eq!(rt; rank_at(network, node), ranks.get(period).copied());
        }
    }

    // All owed has the rank 0, and neither the source nor what is owed at a depot has a rank.
    fn check_other_ranks<N: Network>(rt: &impl Abort, network: &N) {
        assert_eq!(rt; network.node_count(), 1554);
        assert_eq!(rt; network.source(), 1536);
        for node in 1536..1553usize {
            assert_eq!(rt; rank_at(network, node), None);
        }
        assert_eq!(rt; rank_at(network, 1553), Some(0));
    }

    // One lane of 47 periods departs in the period 0 alone.
    #[test]
    fn longest_lane(rt: HostRuntime) -> Result<(), Fail> {
        let mut rows = [[1; 48]];
        rows[0][0] = 7;
        let timetable = schedule(47, 0, &[LONGEST], &rows, &[1]);
        let network = DayNetwork::new(timetable, &[4], Some(DepotOrder))?;
        assert_eq!(rt; network.arc_count(), 97);
        check_lane(&rt, &network, 0, 0, &[(1536, 95, 7)]);
        check_places(&rt, &network, 48, 1, 47, 0, 4);
        assert_eq!(rt; arc_at(&network, 96), Some((1537, 1553, 4)));
        check_other_ranks(&rt, &network);
        check_ranks(&rt, &network, 0, &[]);
        check_ranks(&rt, &network, 1, &[1; 48]);
        Ok(())
    }

    // A lane of 4 periods does not arrive by the horizon 3.
    #[test]
    fn lane_longer_than_the_horizon(rt: HostRuntime) -> Result<(), Fail> {
        let lanes = [Lane {
            from: 0,
            to: 1,
            transit: 4,
        }];
        let timetable = schedule(3, 0, &lanes, &[[9; 48]], &[1]);
        let network = DayNetwork::new(timetable, &[0], Some(PeriodOrder))?;
        assert_eq!(rt; network.arc_count(), 97);
        check_lane(&rt, &network, 0, 0, &[]);
        check_places(&rt, &network, 48, 1, 3, 0, 0);
        assert_eq!(rt; arc_at(&network, 96), Some((1537, 1553, 0)));
        check_other_ranks(&rt, &network);
        check_ranks(&rt, &network, 1, &[1, 2, 3, 4]);
        Ok(())
    }

    // Where there is no depot, no place is live.
    #[test]
    fn no_depots(rt: HostRuntime) -> Result<(), Fail> {
        let timetable = schedule(9, 0, &[TO_1, FROM_1_TO_2], &[[9; 48]; 2], &[]);
        let network = DayNetwork::new(timetable, &[], Some(DepotOrder))?;
        assert_eq!(rt; network.arc_count(), 96);
        check_lane(&rt, &network, 0, 0, &[]);
        check_lane(&rt, &network, 1, 0, &[]);
        check_other_ranks(&rt, &network);
        check_ranks(&rt, &network, 1, &[]);
        check_ranks(&rt, &network, 2, &[]);
        Ok(())
    }

    // The yard 1 is live up to the horizon, since it is a depot; else a pallet would have to leave it by the period 2.
    #[test]
    fn depot_before_another(rt: HostRuntime) -> Result<(), Fail> {
        let mut rows = [[5; 48], [6; 48]];
        rows[0][1] = 8;
        let timetable = schedule(3, 0, &[TO_1, FROM_1_TO_2], &rows, &[2, 1]);
        let network = DayNetwork::new(timetable, &[3, 4], Some(DepotOrder))?;
        assert_eq!(rt; network.arc_count(), 194);
        check_lane(
            &rt,
            &network,
            0,
            0,
            &[(1536, 49, 5), (1536, 50, 8), (1536, 51, 5)],
        );
        check_lane(&rt, &network, 1, 1, &[(49, 98, 6), (50, 99, 6)]);
        check_places(&rt, &network, 96, 2, 3, 0, 3);
        check_places(&rt, &network, 144, 1, 3, 1, 4);
        assert_eq!(rt; arc_at(&network, 192), Some((1537, 1553, 3)));
        assert_eq!(rt; arc_at(&network, 193), Some((1538, 1553, 4)));
        check_other_ranks(&rt, &network);
        check_ranks(&rt, &network, 2, &[1; 4]);
        check_ranks(&rt, &network, 1, &[2; 4]);
        let only_end = schedule(3, 0, &[TO_1, FROM_1_TO_2], &rows, &[2]);
        let network = DayNetwork::new(only_end, &[3], Some(DepotOrder))?;
        check_lane(&rt, &network, 0, 0, &[(1536, 49, 5), (1536, 50, 8)]);
        Ok(())
    }

    // No lane leads to the depot 9: none of its places is live, and they have arcs and ranks all the same.
    #[test]
    fn yards_that_no_lane_touches(rt: HostRuntime) -> Result<(), Fail> {
        let lanes = [Lane {
            from: 31,
            to: 0,
            transit: 2,
        }];
        let timetable = schedule(2, 31, &lanes, &[[9; 48]], &[0, 9]);
        let network = DayNetwork::new(timetable, &[2, 6], Some(PeriodOrder))?;
        assert_eq!(rt; network.arc_count(), 146);
        check_lane(&rt, &network, 0, 0, &[(1536, 2, 9)]);
        check_places(&rt, &network, 48, 0, 2, 0, 2);
        check_places(&rt, &network, 96, 9, 2, 1, 6);
        check_other_ranks(&rt, &network);
        check_ranks(&rt, &network, 0, &[1, 2, 3]);
        check_ranks(&rt, &network, 9, &[1, 2, 3]);
        check_ranks(&rt, &network, 5, &[]);
        check_ranks(&rt, &network, 31, &[]);
        Ok(())
    }

    // As many lanes and depots as there can be.
    #[test]
    fn all_lanes_and_depots(rt: HostRuntime) -> Result<(), Fail> {
        let depots = [1, 2, 3, 4, 5, 6, 7, 8, 9, 10, 11, 12, 13, 14, 15, 16];
        let timetable = schedule(47, 0, &[TO_1; 96], &[[9999; 48]; 96], &depots);
        let network = DayNetwork::new(timetable, &[7; 16], Some(DepotOrder))?;
        assert_eq!(rt; network.arc_count(), 5392);
        assert_eq!(rt; arc_at(&network, 0), Some((1536, 49, 9999)));
        assert_eq!(rt; arc_at(&network, 4606), Some((1536, 95, 9999)));
        assert_eq!(rt; arc_at(&network, 4607), Some((1536, 1536, 0)));
        check_places(&rt, &network, 4608, 1, 47, 0, 7);
        check_places(&rt, &network, 5328, 16, 47, 15, 7);
        assert_eq!(rt; arc_at(&network, 5391), Some((1552, 1553, 7)));
        check_other_ranks(&rt, &network);
        check_ranks(&rt, &network, 16, &[16; 48]);
        Ok(())
    }

    // Without a ranking only all owed has a rank.
    #[test]
    fn no_ranking(rt: HostRuntime) -> Result<(), Fail> {
        let timetable = schedule(9, 0, &[TO_1], &[[9; 48]], &[1]);
        let network = DayNetwork::<DepotOrder>::new(timetable, &[5], None)?;
        check_other_ranks(&rt, &network);
        check_ranks(&rt, &network, 1, &[]);
        Ok(())
    }

    #[test]
    fn what_can_be_owed(rt: HostRuntime) -> Result<(), Fail> {
        let timetable = schedule(9, 0, &[TO_1], &[[9; 48]], &[1]);
        let most = DayNetwork::new(timetable, &[5119488], Some(DepotOrder))?;
        assert_eq!(rt; arc_at(&most, 96), Some((1537, 1553, 5119488)));
        assert_eq!(rt; fault_of(timetable, &[5119489]), Some(OwedError::TooMuch));
        assert_eq!(rt; fault_of(timetable, &[]), Some(OwedError::NotByDepot));
        assert_eq!(rt; fault_of(timetable, &[1, 1]), Some(OwedError::NotByDepot));
        Ok(())
    }
}
