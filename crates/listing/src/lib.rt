//! The March listing, from bytes to bytes.
#![tactic(auto)]

ghost use Rattle.std.specs.Prelude.{◌≡◌, [], ◌∷◌, ◌+◌, ◌*◌, ◌<◌, ◌≤◌, length};
ghost use Rattle.klaim.specs.Limits.{site_limit, report_size};
ghost use Rattle.klaim.specs.Analysis.{accepted};
ghost use Rattle.klaim.specs.Reader.{refused, gives};
ghost use Rattle.klaim.specs.Refusals.{number_of};
ghost use Rattle.klaim.specs.Listing.{numeral, row as word_row, rows_v, list_verdict, list_read, listing as listing_of};
ghost use Rattle.worlds.specs.World.{world_view};
ghost use Rattle.checker.specs.Check.{WellFormed};
ghost use Rattle.writer.specs.Wrote.{Wrote};
ghost use Rattle.writer.specs.Letters.{letter_table};
ghost use Rattle.listing.specs.Lines.{entry_v, line_u, lines_u, accepted_list, Counts};

use klaim::{Reason, Refusal};
use tables::{REPORT, SITES};
use verdict::Verdict;
use worlds::World;
use writer::LetterTable;

// The longest listing: 14 bytes of `accepted`, 1,024 V rows of 16, 32 U rows of 19.
pub const LISTING: usize = 17006;

// The V row of byte i of a report, if it has a right.
fn put_entry(out: &mut [u8], at: usize, table: &LetterTable, i: usize, rights: u8) -> usize
    requires { (table.now ≡ letter_table) × (i < report_size) × (at + 16 ≤ length out.old) }
    ensures { Wrote out.old out.new at (entry_v i rights) result }
{
    if rights == 0 {
        return at;
    }
    rows::put_v(out, at, table, (i / SITES) as u8, (i % SITES) as u8, rights)
}

// The V rows of a report, in byte order, each of at most 16 bytes. One table of letters serves them all.
fn put_rows_v(out: &mut [u8], at: usize, report: &[u8; REPORT]) -> usize
    requires { (length report.now ≡ report_size) × (at + 16384 ≤ length out.old) }
    ensures { (result ≤ at + 16384) × Wrote out.old out.new at (rows_v report.now) result }
{
    let table = writer::letter_table();
    let mut next = at;
    for i in 0..REPORT {
        next = put_entry(out, next, &table, i, report[i]);
    }
    next
}

// The U row of a site that holds p rights and uses q of them.
fn put_line(out: &mut [u8], at: usize, s: u8, p: u32, q: u32) -> usize
    requires { (s < site_limit) × (q ≤ p) × (p ≤ 160) × (at + 19 ≤ length out.old) }
    ensures { Wrote out.old out.new at (line_u s p q) result }
{
    let part = counts::share(p, q);
    rows::put_u(out, at, s, p, q, part)
}

// The U rows of the sites below n, each of at most 19 bytes.
fn put_rows_u<'a>(
    out: &mut [u8],
    at: usize,
    held: &'a [u32; SITES],
    used: &'a [u32; SITES],
    n: u8,
) -> usize
    requires { Counts held.now used.now × (n ≤ site_limit) × (at + 19 * n ≤ length out.old) }
    ensures { (result ≤ at + 19 * n) × Wrote out.old out.new at (lines_u held.now used.now n) result }
{
    let mut next = at;
    for s in 0..n {
        let i = usize::from(s);
        next = put_line(out, next, s, held[i], used[i]);
    }
    next
}

// The listing of an accepted net: the rights reported, the V rows, the U rows.
fn put_listing<'a>(
    out: &mut [u8],
    report: &'a [u8; REPORT],
    held: &'a [u32; SITES],
    used: &'a [u32; SITES],
    n: u8,
) -> usize
    requires { (length report.now ≡ report_size) × Counts held.now used.now × (n ≤ site_limit) × (17006 ≤ length out.old) }
    ensures wrote { Wrote out.old out.new 0 (accepted_list report.now held.now used.now n) result }
    ensures upper_bound { result ≤ 17006 }
{
    let count = counts::reported(report);
    let a = rows::put_accepted(out, 0, count);
    let b = put_rows_v(out, a, report);
    put_rows_u(out, b, held, used, n)
}

// The most bytes of an input.
const INPUT: usize = 65536;

// The listing of a net that is accepted.
fn list_accepted(w: World, out: &mut [u8]) -> usize
    requires { WellFormed w × (17006 ≤ length out.old) }
    ensures wrote { Wrote out.old out.new 0 (list_verdict (world_view w) accepted) result }
    ensures upper_bound { result ≤ 17006 }
{
    let report = report::report(&w.net, &w.estimate);
    let held = counts::home_counts(&w.net);
    let used = usable::used_counts(&w.net, &w.estimate);
    put_listing(out, &report, &held, &used, w.net.size)
}

// The row of a refusal.
fn put_refusal(out: &mut [u8], refusal: Refusal) -> usize
    requires { (refusal.row < 100000) × (17006 ≤ length out.old) }
    ensures wrote { Wrote out.old out.new 0 (list_read (refused (number_of refusal.why) refusal.row)) result }
    ensures upper_bound { result ≤ 17006 }
{
    rows::put_refused(out, 0, u32::from(refusal.why.number()), refusal.row as u32)
}

// The row of a broken rule at a T row or a Q line.
fn put_break(out: &mut [u8], kind: u8, number: u8) -> usize
    requires { 17006 ≤ length out.old }
    ensures wrote { Wrote out.old out.new 0 (word_row "broken" ((kind ∷ []) ∷ numeral number ∷ [])) result }
    ensures upper_bound { result ≤ 17006 }
{
    rows::put_broken(out, 0, kind, u32::from(number))
}

// The listing of a net that was read.
fn list_read(w: World, out: &mut [u8]) -> usize
    requires { WellFormed w × (17006 ≤ length out.old) }
    ensures wrote { Wrote out.old out.new 0 (list_read (gives (world_view w))) result }
    ensures upper_bound { result ≤ 17006 }
{
    match verdict::judge(&w.net, &w.estimate) {
        Verdict::Accepted => list_accepted(w, out),
        Verdict::BrokenTuple(i) => put_break(out, b'T', i),
        Verdict::BrokenLine(q) => put_break(out, b'Q', q),
    }
}

// The March listing: from the bytes of the input, a net, a row `.` and an estimate, to the bytes of the listing, which stand from
// the first byte of the output on. Answers how many they are; 17,006 bytes hold every listing.
pub fn list(input: &[u8], output: &mut [u8; LISTING]) -> usize
    ensures wrote { Wrote output.old output.new 0 (listing_of input.now) result }
    ensures upper_bound { result ≤ 17006 }
{
    if INPUT < input.len() {
        return put_refusal(output, Refusal::from(Reason::Limit));
    }
    let n = parts::before(input);
    let from = parts::behind(input, n);
    match worlds::read_both(&input[..n], &input[from..]) {
        Ok(w) => list_read(w, output),
        Err(refusal) => put_refusal(output, refusal),
    }
}
