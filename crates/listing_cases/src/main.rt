//! Runs `listing::list` on many cases from one input, framed as `frames` says: for each a row `case,K` and its listing.
#![tactic(auto)]

use std::io::Write;
use streams::{Failure, Program};

const PROGRAM: Program = Program {
    name: b"listing_cases",
    help: b"usage: listing_cases [FILE]\n\
    Prints the listings of many inputs of lotcheck. FILE, or else standard input,\n\
    has for each a row with its length in bytes, and then as many bytes.\n",
};

// The listing of a case.
fn list<W: Write>(output: &mut W, case: &[u8]) -> Result<(), Failure> {
    let mut rows = [0u8; listing::LISTING];
    let n = listing::list(case, &mut rows);
    streams::write(output, &rows[..n]).map_err(Failure::Unwritten)
}

fn main(rt: HostRuntime) {
    PROGRAM.run(&rt, |input, output| {
        frames::run(input, output, |output, case| list(output, case))
    });
}
