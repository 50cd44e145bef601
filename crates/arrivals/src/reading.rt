//! What a reader of an arrival has of it.

ghost use Rattle.std.specs.Prelude.{◌≤◌};
ghost use Rattle.klaim.specs.Limits.{line_limit};

use scan::Tally;
use tables::Lines;

// An arrival as far as it is read: its lines, the tally of its rows, and how many lines are present before it.
#[derive(Clone, Copy)]
pub struct ArrivalReader {
    pub lines: Lines,
    pub tally: Tally,
    pub present: usize,
    pub ghost present_few: { present ≤ line_limit },
}
