// Performs the day of the day file that comes on standard input, and prints a line for each record.
#![tactic(auto)]

use lines::listing::listing;
use std::io;
use std::io::Read;

// One byte more than a day file may have, so that a file that is too long is seen to be.
const READ_LIMIT: u64 = 32769;

fn main(rt: HostRuntime) -> io::Result<()> {
    let mut file = Vec::new(rt.alloc());
    rt.stdin().take(READ_LIMIT).read_to_end(&mut file)?;
    let text = listing(rt.alloc(), file.as_slice())?;
    rt.print(text)
}
