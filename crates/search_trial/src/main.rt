// Serves the ranks of networks that come as numbers on standard input, and prints the figures and the marks of each.
// With a number as its argument it serves each network so many times, and says on standard error how long one took.
#![tactic(auto)]

mod numbers;
mod trial;

use numbers::Numbers;
use std::io::Read;
use std::time::Instant;
use std::{env, io};
use trial::{Trial, TrialError};

// The most bytes that are read.
const READ_LIMIT: u64 = 16777216;

// How often each network is served: the first argument, or once.
fn repeats(rt: &HostRuntime) -> io::Result<u32> {
    let mut args = env::args(rt)?;
    let _ = args.next();
    Ok(
        args.next()
            .and_then(|text| text.parse::<u32>().ok())
            .unwrap_or(1),
    )
}

// Serves one network so many times, and prints what it gets.
fn run(rt: &HostRuntime, trial: &mut Trial, times: u32) -> io::Result<()> {
    let start = Instant::now(rt)?;
    for _ in 0..times {
        trial.serve();
    }
    let taken = start.elapsed(rt)?;
    if times > 1 {
        let micros = taken.as_micros() / u128::from(times);
        eprintln!(rt; "{micros} microseconds")?;
    }
    println!(rt; "{trial}")
}

fn main(rt: HostRuntime) -> io::Result<()> {
    let times = repeats(&rt)?;
    let mut input = Vec::new(rt.alloc());
    rt.stdin().take(READ_LIMIT).read_to_end(&mut input)?;
    let mut numbers = Numbers::new(input.as_slice());
    while let Some(nodes) = numbers.next() {
        match Trial::read(rt.alloc(), nodes, &mut numbers) {
            Ok(mut trial) => run(&rt, &mut trial, times)?,
            Err(TrialError::OutOfMemory(error)) => return Err(io::Error::from(error)),
            Err(why) => rt.println(why)?,
        }
    }
    Ok(())
}
