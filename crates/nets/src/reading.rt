//! What a reader of a net has of it.

ghost use Rattle.std.specs.Prelude.{◌≡◌, ◌≤◌};
ghost use Rattle.klaim.specs.Limits.{site_limit};

use repeats::Keys;
use scan::Tally;
use tables::{BOXES, HOMES, Lines, Roots, Tuples};

// A net as far as it is read: its tables, the keys of its tuples, and the tally of its rows.
#[derive(Clone, Copy)]
pub struct NetReader {
    pub homes: [u8; HOMES],
    pub boxes: [u8; BOXES],
    pub tuples: Tuples,
    pub keys: Keys,
    pub roots: Roots,
    pub lines: Lines,
    pub tally: Tally,
    pub ghost keyed: { keys.count ≡ tuples.count },
    pub ghost size_few: { tally.size ≤ site_limit },
}
