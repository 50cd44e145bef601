//! The rows of the March listing, each written from `at` on into a lent buffer.
#![tactic(auto)]

ghost use Rattle.std.specs.Prelude.{◌≡◌, [], ◌∷◌, ◌+◌, ◌≤◌, length};
ghost use Rattle.klaim.specs.Listing.{numeral, site_name, letters, row};
ghost use Rattle.writer.specs.Wrote.{Wrote, field};
ghost use Rattle.writer.specs.Letters.{letter_table};

use writer::{LetterTable, put_byte, put_letters_from, put_number, put_site, put_text};

// A comma and a number.
fn number_field(out: &mut [u8], at: usize, n: u32) -> usize
    requires { at + length (field (numeral n)) ≤ length out.old }
    ensures { Wrote out.old out.new at (field (numeral n)) result }
{
    let next = put_byte(out, at, b',');
    put_number(out, next, n)
}

// A comma and the name of a site.
fn site_field(out: &mut [u8], at: usize, site: u8) -> usize
    requires { at + length (field (site_name site)) ≤ length out.old }
    ensures { Wrote out.old out.new at (field (site_name site)) result }
{
    let next = put_byte(out, at, b',');
    put_site(out, next, site)
}

// A comma and the letters of a set of rights.
fn rights_field(out: &mut [u8], at: usize, table: &LetterTable, rights: u8) -> usize
    requires { (table.now ≡ letter_table) × (at + length (field (letters rights)) ≤ length out.old) }
    ensures { Wrote out.old out.new at (field (letters rights)) result }
{
    let next = put_byte(out, at, b',');
    put_letters_from(out, next, table, rights)
}

// `accepted`, and how many rights are reported.
pub fn put_accepted(out: &mut [u8], at: usize, count: u32) -> usize
    requires { at + length (row "accepted" (numeral count ∷ [])) ≤ length out.old }
    ensures { Wrote out.old out.new at (row "accepted" (numeral count ∷ [])) result }
{
    let a = put_text(out, at, b"accepted");
    let b = number_field(out, a, count);
    put_byte(out, b, b'\n')
}

// `refused`, the number, and the row.
pub fn put_refused(out: &mut [u8], at: usize, number: u32, line: u32) -> usize
    requires { at + length (row "refused" (numeral number ∷ numeral line ∷ [])) ≤ length out.old }
    ensures { Wrote out.old out.new at (row "refused" (numeral number ∷ numeral line ∷ [])) result }
{
    let a = put_text(out, at, b"refused");
    let b = number_field(out, a, number);
    let c = number_field(out, b, line);
    put_byte(out, c, b'\n')
}

// `broken`, the kind (T or Q), and the number counted from 0.
pub fn put_broken(out: &mut [u8], at: usize, kind: u8, number: u32) -> usize
    requires { at + length (row "broken" ((kind ∷ []) ∷ numeral number ∷ [])) ≤ length out.old }
    ensures { Wrote out.old out.new at (row "broken" ((kind ∷ []) ∷ numeral number ∷ [])) result }
{
    let a = put_text(out, at, b"broken,");
    let b = put_byte(out, a, kind);
    let c = number_field(out, b, number);
    put_byte(out, c, b'\n')
}

// A row V: subject, object, rights.
pub fn put_v(
    out: &mut [u8],
    at: usize,
    table: &LetterTable,
    subject: u8,
    object: u8,
    rights: u8,
) -> usize
    requires table_value { table.now ≡ letter_table }
    requires rights_in_bounds { at + length (row "V" (site_name subject ∷ site_name object ∷ letters rights ∷ [])) ≤ length out.old }
    ensures { Wrote out.old out.new at (row "V" (site_name subject ∷ site_name object ∷ letters rights ∷ [])) result }
{
    let a = put_byte(out, at, b'V');
    let b = site_field(out, a, subject);
    let c = site_field(out, b, object);
    let d = rights_field(out, c, table, rights);
    put_byte(out, d, b'\n')
}

// A row U: site, rights in its home policy, those used, the share.
pub fn put_u(out: &mut [u8], at: usize, site: u8, held: u32, used: u32, share: u32) -> usize
    requires { at + length (row "U" (site_name site ∷ numeral held ∷ numeral used ∷ numeral share ∷ [])) ≤ length out.old }
    ensures { Wrote out.old out.new at (row "U" (site_name site ∷ numeral held ∷ numeral used ∷ numeral share ∷ [])) result }
{
    let a = put_byte(out, at, b'U');
    let b = site_field(out, a, site);
    let c = number_field(out, b, held);
    let d = number_field(out, c, used);
    let e = number_field(out, d, share);
    put_byte(out, e, b'\n')
}
