//! What a reader of an estimate has of it.

ghost use Rattle.std.specs.Prelude.{◌≡◌};

use repeats::Keys;
use scan::Tally;
use tables::{HOMES, Tuples, VARIABLES};

// An estimate as far as it is read: its tables, the keys of its tuples, and the tally of its rows.
#[derive(Clone, Copy)]
pub struct EstimateReader {
    pub binds: [u32; VARIABLES],
    pub stand: Tuples,
    pub keys: Keys,
    pub hold: [u8; HOMES],
    pub tally: Tally,
    pub ghost keyed: { keys.count ≡ stand.count },
}
