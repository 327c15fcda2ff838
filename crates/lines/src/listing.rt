// The lines of a whole day: one for each record of its file, and one for the fault that ends the reading.
ghost use Rattle.std.specs.Prelude.{◌≡◌, ◌∷◌, ◌++◌, List, IfOk, string_bytes, OnOk, map, vec_items};
ghost use Rattle.dayfile.specs.Records.{mark_of_record, view};
ghost use Rattle.run_sheet.specs.declared.leg.Leg.{Leg};
ghost use Rattle.session.specs.Replies.{told};
ghost use Rattle.session.specs.Days.{day_of};
ghost use Rattle.lines.specs.Lines.{record_line, run_line};
ghost use Rattle.lines.specs.Listing.{Lists, NextLine, Told, ended, followed, tells_runs};

use crate::ending::Ending;
use crate::text::{fault_line, record_line, run_line};
use dayfile::reader::Reader;
use dayfile::record::Record;
use run_sheet::Leg;
use session::fault::DayFault;
use session::reply::Reply;
use session::session::Session;
use std::alloc::{AllocError, Global};

// Adds a line, with the line feed that ends it.
fn push_line(out: &mut String, line: &str) -> Result<(), AllocError>
    ensures { OnOk result (string_bytes out.new ≡ ended (string_bytes out.old ++ line.now)) }
{
    out.push_str(line)?;
    out.push_str("\n")
}

// Whether the record is a run sheet that was not turned away.
fn tells_runs(entry: Record, outcome: Result<Reply, DayFault>) -> bool
    ensures { result ≡ tells_runs (view entry.entry) (told outcome.entry) }
{
    matches!(entry, Record::RunSheet) && outcome.is_ok()
}

// Adds the line of a run, after a line feed.
fn push_run(heap: Global, out: &mut String, legs: &[Leg]) -> Result<(), AllocError>
    ensures { OnOk result (string_bytes out.new ≡ string_bytes out.old ++ (10 ∷ run_line legs.now)) }
{
    out.push('\n')?;
    out.push_str(run_line(heap, legs)?.as_str())
}

// Adds the line of each run, after a line feed.
fn push_runs(heap: Global, out: &mut String, runs: &[Vec<Leg>]) -> Result<(), AllocError>
    ensures { OnOk result (string_bytes out.new ≡ string_bytes out.old ++ followed (map vec_items runs.now)) }
{
    for legs in runs {
        push_run(heap, out, legs)?;
    }
    Ok(())
}

// The line of the n-th record, with those of the runs that it tells.
fn turn_text(
    heap: Global,
    session: &Session,
    nth: usize,
    entry: Record,
    outcome: Result<Reply, DayFault>,
) -> Result<String, AllocError>
    ensures { IfOk result (λ s. (runs : List (List Leg)) × Told (view entry.entry) (told outcome.entry) (day_of session.now) runs × (string_bytes s ≡ record_line nth (mark_of_record (view entry.entry)) (told outcome.entry) ++ followed runs)) }
{
    let mut text = record_line(heap, nth, entry.mark(), outcome)?;
    if !tells_runs(entry, outcome) {
        return Ok(text);
    }
    push_runs(heap, &mut text, &session.runs(heap)?)?;
    Ok(text)
}

// Performs the next record, and gives its line, with those of the runs that it tells, or `None` at the end of the file.
fn next_line<'a>(
    heap: Global,
    reader: &mut Reader<'a>,
    session: &mut Session<'a>,
) -> Result<Option<String>, Ending>
    ensures { NextLine reader.old (day_of session.old) result reader.new (day_of session.new) }
{
    let position = reader.position();
    let Some(entry) = reader.next()? else {
        return Ok(None);
    };
    let outcome = session.perform(entry, position);
    Ok(Some(turn_text(heap, session, position.nth, entry, outcome)?))
}

// The lines of the day whose file this is.
pub fn listing(heap: Global, file: &[u8]) -> Result<String, AllocError>
    ensures { IfOk result (λ s. Lists file.now (string_bytes s)) }
{
    let mut out = String::new(heap);
    let mut reader = Reader::new(file);
    let mut session = Session::new(heap)?;
    'lines: loop {
        match next_line(heap, &mut reader, &mut session) {
            Ok(Some(line)) => push_line(&mut out, line.as_str())?,
            Ok(None) => return Ok(out),
            Err(Ending::Fault(fault)) => {
                push_line(&mut out, fault_line(heap, fault)?.as_str())?;
                return Ok(out);
            }
            Err(Ending::Memory(error)) => return Err(error),
        }
    }
}
