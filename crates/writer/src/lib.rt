//! Writing into a lent buffer: bytes, texts, numbers, names of sites, letters of rights.
//! Each function that is lent a buffer writes from `at` on and answers the place behind what it wrote.
#![tactic(auto)]

ghost use Rattle.std.specs.Prelude.{◌≡◌, [], ◌∷◌, ◌+◌, ◌<◌, ◌≤◌, length};
ghost use Rattle.klaim.specs.Listing.{numeral, site_name, letters};
ghost use Rattle.writer.specs.Wrote.{Wrote};
ghost use Rattle.writer.specs.Letters.{letter_table};

use sets::{RIGHTS, SETS};

// One byte.
pub fn put_byte(out: &mut [u8], at: usize, byte: u8) -> usize
    requires { at < length out.old }
    ensures { Wrote out.old out.new at (byte ∷ []) result }
{
    out[at] = byte;
    at + 1
}

// A text.
pub fn put_text(out: &mut [u8], at: usize, text: &[u8]) -> usize
    requires { at + length text.now ≤ length out.old }
    ensures { Wrote out.old out.new at text.now result }
{
    let end = at + text.len();
    out[at..end].copy_from_slice(text);
    end
}

// The digit of a number below ten.
fn digit(n: u32) -> u8
    requires { n < 10 }
    ensures { result ≡ 48 + n }
{
    b'0' + n as u8
}

// A number of one digit or two.
fn put_short(out: &mut [u8], at: usize, n: u32) -> usize
    requires { (n < 100) × (at + length (numeral n) ≤ length out.old) }
    ensures { Wrote out.old out.new at (numeral n) result }
{
    if n < 10 {
        return put_byte(out, at, digit(n));
    }
    let next = put_byte(out, at, digit(n / 10));
    put_byte(out, next, digit(n % 10))
}

// A number in decimal: its tenth, and its last digit behind. One or two digits, as a site has, are written without calling itself.
pub fn put_number(out: &mut [u8], at: usize, n: u32) -> usize
    requires { at + length (numeral n) ≤ length out.old }
    ensures { Wrote out.old out.new at (numeral n) result }
{
    if n < 100 {
        return put_short(out, at, n);
    }
    let next = put_number(out, at, n / 10);
    put_byte(out, next, digit(n % 10))
}

// The name of a site.
pub fn put_site(out: &mut [u8], at: usize, site: u8) -> usize
    requires { at + length (site_name site) ≤ length out.old }
    ensures { Wrote out.old out.new at (site_name site) result }
{
    let next = put_byte(out, at, b's');
    put_number(out, next, u32::from(site))
}

// What stands in an entry of the table behind the last letter.
const DOT: u8 = b'.';

// An entry for each set of rights, at the set's number.
pub type LetterTable = [[u8; RIGHTS]; SETS];

// No. 4 of document 02: the letters of each set of rights, in the order `oirea`, and dots up to the length of an entry.
const LETTERS: LetterTable = [
    *b".....", *b"o....", *b"i....", *b"oi...", *b"r....", *b"or...", *b"ir...", *b"oir..",
    *b"e....", *b"oe...", *b"ie...", *b"oie..", *b"re...", *b"ore..", *b"ire..", *b"oire.",
    *b"a....", *b"oa...", *b"ia...", *b"oia..", *b"ra...", *b"ora..", *b"ira..", *b"oira.",
    *b"ea...", *b"oea..", *b"iea..", *b"oiea.", *b"rea..", *b"orea.", *b"irea.", *b"oirea",
];

// The table. It is made anew at each call: a caller that writes many sets makes it once and lends it to `put_letters_from`.
pub fn letter_table() -> LetterTable
    ensures { result ≡ letter_table }
{
    LETTERS
}

// The letters of a set of rights, from the table: its entry up to the first dot. Bits that are no right do not count.
pub fn put_letters_from(out: &mut [u8], at: usize, table: &LetterTable, rights: u8) -> usize
    requires { (table.now ≡ letter_table) × (at + length (letters rights) ≤ length out.old) }
    ensures { Wrote out.old out.new at (letters rights) result }
{
    let set = usize::from(rights) % SETS;
    for i in 0..RIGHTS {
        let letter = table[set][i];
        if letter == DOT {
            return at + i;
        }
        out[at + i] = letter;
    }
    at + RIGHTS
}

// The letters of a set of rights, in the order `oirea`.
pub fn put_letters(out: &mut [u8], at: usize, rights: u8) -> usize
    requires { at + length (letters rights) ≤ length out.old }
    ensures { Wrote out.old out.new at (letters rights) result }
{
    let table = letter_table();
    put_letters_from(out, at, &table, rights)
}
