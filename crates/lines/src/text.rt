// One line each: of a record that was read, and of a fault that ends the reading.
ghost use Rattle.std.specs.Prelude.{◌≡◌, IfOk, string_bytes};
ghost use Rattle.dayfile.specs.Faults.{record_number, record_position};
ghost use Rattle.session.specs.Replies.{answer_of, figures as figures_told, told};
ghost use Rattle.lines.specs.Lines.{fault_line, pallets_of, record_line, reply_line, run_line};

use dayfile::fault::RecordFault;
use dayfile::mark::Mark;
use dayfile::name::text_of;
use run_sheet::Leg;
use session::fault::DayFault;
use session::reply::Reply;
use std::alloc::{AllocError, Global};

// The line of the n-th record, which has this mark: what it was answered, or the number of the fault for which it was turned away.
pub fn record_line(
    heap: Global,
    nth: usize,
    mark: Mark,
    outcome: Result<Reply, DayFault>,
) -> Result<String, AllocError>
    ensures { IfOk result (λ s. string_bytes s ≡ record_line nth mark (told outcome.entry)) }
{
    match outcome {
        Ok(reply) => reply_line(heap, nth, mark, reply),
        Err(fault) => {
            let number = fault.number();
            format!(in heap; "{nth} {mark} no {number}")
        }
    }
}

// The line of a record that was not turned away.
fn reply_line(heap: Global, nth: usize, mark: Mark, reply: Reply) -> Result<String, AllocError>
    ensures { IfOk result (λ s. string_bytes s ≡ reply_line nth mark (answer_of reply.entry)) }
{
    match reply {
        Reply::Done => format!(in heap; "{nth} {mark} ok"),
        Reply::Lane(number) => format!(in heap; "{nth} {mark} ok {number}"),
        Reply::Depot { order, name: None } => format!(in heap; "{nth} {mark} ok {order}"),
        Reply::Depot {
            order,
            name: Some(name),
        } => {
            let text = text_of(name).unwrap_or("?");
            format!(in heap; "{nth} {mark} ok {order} {text}")
        }
        Reply::Slip(number) => format!(in heap; "{nth} {mark} ok {number}"),
        Reply::Figures(figures) => figures_line(heap, nth, mark, figures.as_slice()),
    }
}

// The line of a quote: its figures in the order of their ranks.
fn figures_line(heap: Global, nth: usize, mark: Mark, figures: &[u64]) -> Result<String, AllocError>
    ensures { IfOk result (λ s. string_bytes s ≡ reply_line nth mark (figures_told figures.now)) }
{
    let mut line = format!(in heap; "{nth} {mark} ok")?;
    for figure in figures {
        write!(line, " {figure}")?;
    }
    Ok(line)
}

// How many pallets go together.
fn pallets_of(legs: &[Leg]) -> u32
    ensures { result ≡ pallets_of legs.now }
{
    match legs {
        [] => 0,
        [leg, ..] => leg.pallets,
    }
}

// The line of a run.
pub fn run_line(heap: Global, legs: &[Leg]) -> Result<String, AllocError>
    ensures { IfOk result (λ s. string_bytes s ≡ run_line legs.now) }
{
    let pallets = pallets_of(legs);
    let mut line = format!(in heap; "{pallets}:")?;
    for leg in legs {
        write!(line, " {}@{}", leg.lane, leg.period)?;
    }
    Ok(line)
}

// The line of a fault that ends the reading.
pub fn fault_line(heap: Global, fault: RecordFault) -> Result<String, AllocError>
    ensures { IfOk result (λ s. string_bytes s ≡ fault_line (record_number fault) (record_position fault)) }
{
    let nth = fault.position().nth;
    format!(in heap; "{nth} ?? {fault}")
}
