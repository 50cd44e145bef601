//! Check: a net against an estimate of where names may go.
#![tactic(auto)]

ghost use Rattle.std.specs.Prelude.{◌≡◌, ◌≤◌, length};
ghost use Rattle.klaim.specs.Check.{check_read};
ghost use Rattle.klaim.specs.Reader.{gives};
ghost use Rattle.worlds.specs.World.{world_view};
ghost use Rattle.verdict.specs.Verdict.{verdict_view};
ghost use Rattle.checker.specs.Check.{WellFormed, Checks};

use klaim::{Reason, Refusal};
use tables::REPORT;
use verdict::Verdict;
use worlds::World;

// The verdict on a net and its estimate that were read; the report is written where they are accepted. The buffer's further bytes stay.
fn check_read(w: World, buffer: &mut [u8]) -> Verdict
    requires well_formed { WellFormed w }
    requires in_bounds { 1024 ≤ length buffer.old }
    ensures verdict { gives (verdict_view result) ≡ (check_read buffer.old (gives (world_view w))).answer }
    ensures buffer_after { buffer.new ≡ (check_read buffer.old (gives (world_view w))).buffer }
{
    let verdict = verdict::judge(&w.net, &w.estimate);
    if let Verdict::Accepted = verdict {
        buffer[..REPORT].copy_from_slice(&report::report(&w.net, &w.estimate));
    }
    verdict
}

// Reads a net and an estimate, and tells whether the rules hold. Accepted, it writes the report into the first 1,024 bytes of the
// buffer; else it writes nothing.
pub fn check(net: &[u8], estimate: &[u8], buffer: &mut [u8]) -> Result<Verdict, Refusal>
    ensures { Checks net.now estimate.now buffer.old result buffer.new }
{
    if buffer.len() < REPORT {
        return Err(Refusal::from(Reason::Buffer));
    }
    let world = worlds::read_both(net, estimate)?;
    Ok(check_read(world, buffer))
}
