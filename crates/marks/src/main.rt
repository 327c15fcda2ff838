// Performs the day of the day file that comes on standard input, as `day` does, and prints the marks of each quote that is not
// turned away: the number of its record, and yard@period:mark for each mark above 0. With it the marks can be judged from outside.
#![tactic(auto)]

mod marking;

use marking::marks_of_day;
use std::io;
use std::io::Read;

// One byte more than a day file may have, so that a file that is too long is seen to be.
const READ_LIMIT: u64 = 32769;

fn main(rt: HostRuntime) -> io::Result<()> {
    let mut file = Vec::new(rt.alloc());
    rt.stdin().take(READ_LIMIT).read_to_end(&mut file)?;
    let text = marks_of_day(rt.alloc(), file.as_slice())?;
    rt.print(text)
}
