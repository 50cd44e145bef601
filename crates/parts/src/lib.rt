//! An input in two parts: the net before the first row `.`, the estimate behind it.
#![tactic(auto)]

ghost use Rattle.std.specs.Prelude.{◌≡◌, true, ◌<◌, ◌≤◌, length, drop};
ghost use Rattle.sets.specs.Lists.{◌&◌};
ghost use Rattle.klaim.specs.Listing as Listing;
ghost use Rattle.parts.specs.Parts.{begins, dot_at};

// Whether a row begins at place i.
fn begins_at(input: &[u8], i: usize) -> bool
    requires { i < length input.now }
    ensures { result ≡ begins input.now i }
{
    if i == 0 {
        return true;
    }
    input[i - 1] == b'\n'
}

// Whether the bytes of a row `.` stand at place i.
fn dot_at(input: &[u8], i: usize) -> bool
    requires { i < length input.now }
    ensures { result ≡ dot_at input.now i }
{
    if input.len() - i < 2 {
        return false;
    }
    if input[i] != b'.' {
        return false;
    }
    input[i + 1] == b'\n'
}

// Whether a row `.` stands at place i.
fn parted_at(input: &[u8], i: usize) -> bool
    requires { i < length input.now }
    ensures { result ≡ (begins input.now i & dot_at input.now i) }
{
    if begins_at(input, i) {
        return dot_at(input, i);
    }
    false
}

// How many bytes stand before the first row `.`; all, where there is none.
pub fn before(input: &[u8]) -> usize
    ensures { result ≡ Listing.before true input.now }
{
    for i in 0..input.len() {
        if parted_at(input, i) {
            return i;
        }
    }
    input.len()
}

// Where the estimate begins, n bytes standing before the first row `.`.
pub fn behind(input: &[u8], n: usize) -> usize
    requires { n ≡ Listing.before true input.now }
    ensures { (result ≤ length input.now) × (drop result input.now ≡ Listing.estimate_part input.now) }
{
    if input.len() - n < 2 {
        return input.len();
    }
    n + 2
}
