// Tests of the day-file reader, in a crate of their own, since a crate with tests is proved twice. Faults and bounds of whole files
// are tried by the days in examples/days.
#![tactic(auto)]

#[cfg(test)]
mod tests {
    use dayfile::fault::{FileFault, Layer, Position, RecordFault};
    use dayfile::mark::{Mark, NoMark};
    use dayfile::name::{is_name, is_text, text_of};
    use dayfile::reader::Reader;
    use dayfile::record::Record;
    use std::test::*;

    // A file that is one record, and its mark.
    struct Whole {
        file: &'static [u8],
        mark: &'static str,
        record: Record<'static>,
    }

    // One whole record of each mark.
    const RECORDS: [Whole; 12] = [
        Whole {
            file: b"HZ\x2f\x1f",
            mark: "HZ",
            record: Record::Open {
                horizon: 47,
                origin: 31,
            },
        },
        Whole {
            file: b"YN\x04\x04Hull",
            mark: "YN",
            record: Record::YardName {
                yard: 4,
                offset: 4,
                name: b"Hull",
            },
        },
        Whole {
            file: b"YN\xff\x01 ",
            mark: "YN",
            record: Record::YardName {
                yard: 255,
                offset: 4,
                name: b" ",
            },
        },
        Whole {
            file: b"LN\x00\x01\x02\x27\x0f",
            mark: "LN",
            record: Record::Lane {
                from: 0,
                to: 1,
                transit: 2,
                capacity: 9999,
            },
        },
        Whole {
            file: b"DP\x1f",
            mark: "DP",
            record: Record::Depot { yard: 31 },
        },
        Whole {
            file: b"SD\x5f\x2f\x01\x00",
            mark: "SD",
            record: Record::Departure {
                lane: 95,
                period: 47,
                capacity: 256,
            },
        },
        Whole {
            file: b"HD\x03\x00\x05",
            mark: "HD",
            record: Record::Hold {
                yard: 3,
                pallets: 5,
            },
        },
        Whole {
            file: b"BK\x01\xff",
            mark: "BK",
            record: Record::Book { slip: 511 },
        },
        Whole {
            file: b"RL\xff\xff",
            mark: "RL",
            record: Record::Release { slip: 65535 },
        },
        Whole {
            file: b"QT\x01",
            mark: "QT",
            record: Record::Quote { ranking: 1 },
        },
        Whole {
            file: b"RS",
            mark: "RS",
            record: Record::RunSheet,
        },
        Whole {
            file: b"YN\x00\x18abcdefghijklmnopqrstuvwx",
            mark: "YN",
            record: Record::YardName {
                yard: 0,
                offset: 4,
                name: b"abcdefghijklmnopqrstuvwx",
            },
        },
    ];

    #[test]
    fn reads_each_mark(rt: HostRuntime) -> Result<(), Fail> {
        for case in &RECORDS {
            let mut reader = Reader::new(case.file);
            assert_eq!(rt; reader.next()?, Some(case.record));
            assert_eq!(rt; reader.next()?, None);
            let mark = case.record.mark().to_string(rt.alloc())?;
            assert_eq!(rt; mark.as_str(), case.mark);
        }
        Ok(())
    }

    // Every cut of every record is 8, whichever record it is.
    #[test]
    fn each_cut_is_eight(rt: HostRuntime) -> Result<(), Fail> {
        let place = Position { nth: 1, offset: 0 };
        for case in &RECORDS {
            for cut in 1..case.file.len() {
                let fault = RecordFault::File(FileFault::CutShort(place));
                assert_eq!(rt;
                    first_fault(&case.file[0..cut]),
                    (0, Some(fault)),
                    "{}",
                    case.mark
                );
            }
        }
        Ok(())
    }

    // The first fault of a file, and how many records come before it. Each record takes a byte at least, so the calls
    // are bounded by the file's length.
    fn first_fault(file: &[u8]) -> (usize, Option<RecordFault>) {
        let mut reader = Reader::new(file);
        for count in 0..=file.len() {
            match reader.next() {
                Ok(Some(_)) => {}
                Ok(None) => return (count, None),
                Err(fault) => return (count, Some(fault)),
            }
        }
        (file.len(), None)
    }

    // A fault keeps the reader where it is, and is met again there.
    #[test]
    fn stays_at_a_fault(rt: HostRuntime) -> Result<(), Fail> {
        let mut reader = Reader::new(b"RSYN\x04\x00RS");
        let _ = reader.next()?;
        for _ in 0..2 {
            let fault = reader.next().err().ok_or("a name of no bytes was read")?;
            assert_eq!(rt; fault.number(), 9);
            assert_eq!(rt; fault.layer(), Layer::Record);
            assert_eq!(rt; reader.position(), Position { nth: 2, offset: 2 });
        }
        Ok(())
    }

    #[test]
    fn record_fault_holds_the_file_fault(rt: HostRuntime) -> Result<(), Fail> {
        let mut reader = Reader::new(b"RSQQ");
        let _ = reader.next()?;
        let fault = reader.next().err().ok_or("an unknown mark was read")?;
        assert_eq!(rt; fault.layer(), Layer::File);
        let file_fault = FileFault::UnknownMark(Position { nth: 2, offset: 2 });
        assert_eq!(rt; fault, RecordFault::File(file_fault));
        assert_eq!(rt; file_fault.number(), 7);
        assert_eq!(rt; file_fault.position().offset, 2);
        Ok(())
    }

    #[test]
    fn name_is_a_part_of_the_file(rt: HostRuntime) -> Result<(), Fail> {
        let mut reader = Reader::new(b"RSYN\x03\x02abRS");
        let _ = reader.next()?;
        let name = Record::YardName {
            yard: 3,
            offset: 6,
            name: b"ab",
        };
        assert_eq!(rt; reader.next()?, Some(name));
        assert_eq!(rt; reader.position().offset, 8);
        Ok(())
    }

    // The faults that a record has by itself, with its number and its layer.
    #[test]
    fn faults_of_records(rt: HostRuntime) -> Result<(), Fail> {
        let place = Position { nth: 3, offset: 9 };
        for (fault, number, shown) in [
            (RecordFault::BadName(place), 9, "no 9 at 9"),
            (RecordFault::NoRanking(place), 11, "no 11 at 9"),
            (RecordFault::OutOfTurn(place), 19, "no 19 at 9"),
        ] {
            assert_eq!(rt; fault.number(), number);
            assert_eq!(rt; fault.layer(), Layer::Record);
            assert_eq!(rt; fault.position(), place);
            assert_eq!(rt; fault.to_string(rt.alloc())?.as_str(), shown);
        }
        Ok(())
    }

    #[test]
    fn text_of_names(rt: HostRuntime) -> Result<(), Fail> {
        assert_eq!(rt; text_of(b"Hull").ok_or("a text is none")?, "Hull");
        assert_eq!(rt; text_of(b"a\xff"), None);
        Ok(())
    }

    #[test]
    fn bounds_of_names(rt: HostRuntime) -> Result<(), Fail> {
        assert!(rt; !is_name(b""));
        assert!(rt; is_name(b"a"));
        assert!(rt; is_name(b"abcdefghijklmnopqrstuvwx"));
        assert!(rt; !is_name(b"abcdefghijklmnopqrstuvwxy"));
        assert!(rt; !is_text(b"\x1f"));
        assert!(rt; is_text(b"\x20"));
        assert!(rt; is_text(b"\x7e"));
        assert!(rt; !is_text(b"\x7f"));
        assert!(rt; is_text(b""));
        Ok(())
    }

    #[test]
    fn marks_by_their_letters(rt: HostRuntime) -> Result<(), Fail> {
        assert_eq!(rt; Mark::try_from(*b"QT"), Ok(Mark::Qt));
        assert_eq!(rt; Mark::try_from(*b"RL"), Ok(Mark::Rl));
        assert_eq!(rt; Mark::try_from(*b"TQ"), Err(NoMark(*b"TQ")));
        assert_eq!(rt; Mark::try_from([0, 0]), Err(NoMark([0, 0])));
        Ok(())
    }
}
