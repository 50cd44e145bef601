//! Runs `scripts::run` on many cases from one input, framed as `frames` says: for each a row `case,K` and what its script prints.
#![tactic(auto)]

use script_rows::Incoming;
use std::io;
use std::io::Write;
use streams::{Failure, Program};

const PROGRAM: Program = Program {
    name: b"script_cases",
    help: b"usage: script_cases [FILE]\n\
    Runs many inputs of lotrun. FILE, or else standard input, has for each a row\n\
    with its length in bytes, and then as many bytes.\n",
};

// What the script of a case prints.
fn run<W: Write>(output: &mut W, case: &mut [u8]) -> Result<(), Failure> {
    scripts::run(&mut Incoming::whole(&mut io::empty(), case), output)
}

fn main(rt: HostRuntime) {
    PROGRAM.run(&rt, |input, output| {
        frames::run(input, output, |output, case| run(output, case))
    });
}
