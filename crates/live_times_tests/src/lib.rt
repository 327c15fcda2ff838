// Tests of live times, in a crate of their own, since a crate with tests is proved twice. What is expected was worked out from the
// distances by `tools/live_cases.py`.
#![tactic(auto)]

#[cfg(test)]
mod tests {
    use live_times::LiveTimes;
    use std::process::Abort;
    use std::test::Fail;
    use timetable::Lane;

    // A lane.
    const fn lane(from: u8, to: u8, transit: u8) -> Lane {
        Lane { from, to, transit }
    }

    // A yard, and the first and the last period in which it is live, if it is at all.
    type Span = (u8, Option<(u8, u8)>);

    // Compares every period of the yards.
    fn check_spans(rt: &impl Abort, times: &LiveTimes, horizon: u8, spans: &[Span]) {
        for (yard, span) in spans {
            for period in 0..=horizon {
                let live = span.is_some_and(|(first, last)| first <= period && period <= last);
                assert!(rt; times.is_live(*yard, period) == live);
            }
        }
    }

    #[test]
    fn three_lanes_and_two_depots(rt: HostRuntime) -> Result<(), Fail> {
        let lanes = [lane(0, 1, 1), lane(1, 2, 1), lane(1, 3, 1)];
        let times = LiveTimes::new(3, 0, &lanes, &[2, 3]);
        let spans = [
            (0, Some((0, 1))),
            (1, Some((1, 2))),
            (2, Some((2, 3))),
            (3, Some((2, 3))),
            (4, None),
        ];
        check_spans(&rt, &times, 3, &spans);
        Ok(())
    }

    #[test]
    fn longest_lane(rt: HostRuntime) -> Result<(), Fail> {
        let times = LiveTimes::new(47, 0, &[lane(0, 1, 47)], &[1]);
        let spans = [(0, Some((0, 0))), (1, Some((47, 47))), (2, None)];
        check_spans(&rt, &times, 47, &spans);
        Ok(())
    }

    #[test]
    fn lane_longer_than_the_horizon(rt: HostRuntime) -> Result<(), Fail> {
        let times = LiveTimes::new(3, 0, &[lane(0, 1, 4)], &[1]);
        check_spans(&rt, &times, 3, &[(0, None), (1, None)]);
        Ok(())
    }

    #[test]
    fn no_depots_and_no_lanes(rt: HostRuntime) -> Result<(), Fail> {
        let times = LiveTimes::new(3, 0, &[lane(0, 1, 1)], &[]);
        check_spans(&rt, &times, 3, &[(0, None), (1, None)]);
        let times = LiveTimes::new(3, 31, &[], &[0]);
        check_spans(&rt, &times, 3, &[(31, None), (0, None)]);
        Ok(())
    }

    #[test]
    fn depot_before_another(rt: HostRuntime) -> Result<(), Fail> {
        let lanes = [lane(7, 1, 2), lane(1, 2, 3)];
        let times = LiveTimes::new(5, 7, &lanes, &[2, 1]);
        let spans = [(7, Some((0, 3))), (1, Some((2, 5))), (2, Some((5, 5)))];
        check_spans(&rt, &times, 5, &spans);
        Ok(())
    }

    #[test]
    fn shorter_way_round_and_a_loop(rt: HostRuntime) -> Result<(), Fail> {
        let lanes = [
            lane(0, 1, 7),
            lane(0, 2, 2),
            lane(2, 1, 3),
            lane(1, 2, 1),
            lane(1, 3, 2),
        ];
        let times = LiveTimes::new(9, 0, &lanes, &[3]);
        let spans = [
            (0, Some((0, 2))),
            (1, Some((5, 7))),
            (2, Some((2, 4))),
            (3, Some((7, 9))),
        ];
        check_spans(&rt, &times, 9, &spans);
        Ok(())
    }

    #[test]
    fn yard_behind_the_depot(rt: HostRuntime) -> Result<(), Fail> {
        let times = LiveTimes::new(6, 0, &[lane(0, 1, 2), lane(1, 4, 3)], &[1]);
        check_spans(&rt, &times, 6, &[(1, Some((2, 6))), (4, None)]);
        let times = LiveTimes::new(1, 0, &[lane(0, 1, 1)], &[1]);
        check_spans(&rt, &times, 1, &[(0, Some((0, 0))), (1, Some((1, 1)))]);
        Ok(())
    }
}
