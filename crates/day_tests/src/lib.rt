// Tests of the day at a board and its lines, in a crate of their own, since a crate with tests is proved twice. Whole days are tried
// by examples/days.
#![tactic(auto)]

#[cfg(test)]
mod tests {
    use dayfile::fault::{FileFault, Layer, Position, RecordFault};
    use dayfile::mark::Mark;
    use dayfile::record::Record;
    use lines::listing::listing;
    use lines::text::{fault_line, record_line};
    use refusals::Refusal;
    use session::fault::DayFault;
    use session::reply::Reply;
    use session::session::Session;
    use std::test::*;

    // A file and the lines of its day.
    const FILE: &[u8] =
        b"HZ\x03\x00LN\x00\x01\x01\x00\x03LN\x01\x02\x01\x00\x02LN\x01\x03\x01\x00\x02DP\x02DP\x03QT\x00HD\x03\x00\x05HD\x03\x00\x03QT\x00BK\x00\x00RL\x00\x00";

    const TEXT: &str =
        "1 HZ ok\n2 LN ok 0\n3 LN ok 1\n4 LN ok 2\n5 DP ok 0\n6 DP ok 1\n7 QT ok 4 2\n8 HD no 18\n9 HD ok 0\n10 QT ok 3 0\n11 BK ok\n12 RL no 17\n";

    #[test]
    fn lists_a_day(rt: HostRuntime) -> Result<(), Fail> {
        assert_eq!(rt; listing(rt.alloc(), FILE)?.as_str(), TEXT);
        Ok(())
    }

    // A fault has its number and its layer, and holds the faults of the layers below.
    #[test]
    fn faults_by_layer(rt: HostRuntime) -> Result<(), Fail> {
        let at = Position { nth: 2, offset: 4 };
        let file_fault = FileFault::CutShort(at);
        let why = Refusal::NoPlan;
        for (fault, number, layer) in [
            (
                DayFault::from(RecordFault::from(file_fault)),
                8,
                Layer::File,
            ),
            (DayFault::from(RecordFault::BadName(at)), 9, Layer::Record),
            (
                DayFault::from(RecordFault::NoRanking(at)),
                11,
                Layer::Record,
            ),
            (DayFault::Board { why, at }, 18, Layer::Board),
        ] {
            assert_eq!(rt; fault.number(), number);
            assert_eq!(rt; fault.layer(), layer);
            assert_eq!(rt; fault.position(), at);
        }
        Ok(())
    }

    #[test]
    fn performs_by_hand(rt: HostRuntime) -> Result<(), Fail> {
        let mut session = Session::new(rt.alloc())?;
        let at = Position { nth: 5, offset: 40 };
        let early = session.perform(Record::Depot { yard: 2 }, at);
        assert_eq!(rt; early, Err(DayFault::Record(RecordFault::OutOfTurn(at))));
        let opening = Record::Open {
            horizon: 3,
            origin: 0,
        };
        assert_eq!(rt; session.perform(opening, at), Ok(Reply::Done));
        let naming = Record::YardName {
            yard: 32,
            offset: 44,
            name: b"Hull",
        };
        let why = Refusal::BadYard;
        assert_eq!(rt;
            session.perform(naming, at),
            Err(DayFault::Board { why, at })
        );
        Ok(())
    }

    #[test]
    fn lines_by_hand(rt: HostRuntime) -> Result<(), Fail> {
        let at = Position { nth: 7, offset: 40 };
        let line = record_line(rt.alloc(), 7, Mark::Hd, Ok(Reply::Slip(511)))?;
        assert_eq!(rt; line.as_str(), "7 HD ok 511");
        let named = Reply::Depot {
            order: 15,
            name: Some(b"a\xff"),
        };
        let line = record_line(rt.alloc(), 7, Mark::Dp, Ok(named))?;
        assert_eq!(rt; line.as_str(), "7 DP ok 15 ?");
        let line = fault_line(rt.alloc(), RecordFault::BadName(at))?;
        assert_eq!(rt; line.as_str(), "7 ?? no 9 at 40");
        Ok(())
    }
}
