//! Reads a net, a row `.` and an estimate from the file that its argument names or from standard input, and writes the March listing.
#![tactic(auto)]

use std::io::{Read, Write};
use streams::{Failure, Program};

// A byte more than an input may have, so that a longer one is seen to be longer.
const INPUT: usize = 65537;

const PROGRAM: Program = Program {
    name: b"lotcheck",
    help: b"usage: lotcheck [FILE]\n\
    Checks a net against an estimate and prints the listing. FILE, or else standard\n\
    input, has the rows of the net, a row `.` and the rows of the estimate, at most\n\
    65,536 bytes.\n",
};

// Reads the input and writes its listing.
fn list<R: Read, W: Write>(input: &mut R, output: &mut W) -> Result<(), Failure> {
    let mut bytes = [0u8; INPUT];
    let mut rows = [0u8; listing::LISTING];
    let n = streams::read_full(input, &mut bytes)?;
    let k = listing::list(&bytes[..n], &mut rows);
    streams::write(output, &rows[..k]).map_err(Failure::Unwritten)
}

fn main(rt: HostRuntime) {
    PROGRAM.run(&rt, |input, output| list(input, output));
}
