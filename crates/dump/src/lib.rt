//! An engine's state as rows on standard output.
#![tactic(auto)]

ghost use Rattle.std.specs.Prelude.{◌≡◌, ◌+◌, ◌*◌, ◌<◌, ◌≤◌, length};

use answers::Row;
use klaim::Site;
use state::{Arrival, Arrivals, State};
use std::io;
use std::io::Write;
use tables::{SITES, Tuple};
use threads::{Bindings, Thread};

// The hexadecimal digits.
const DIGITS: [u8; 16] = *b"0123456789abcdef";

// A byte in two hexadecimal digits. A format, `{:02x}`, would have to be written into a row that is not proved to have room for it.
fn put_hex<const N: usize>(row: &mut Row<N>, byte: u8)
    requires { row.old.end + 2 ≤ N }
    ensures { row.new.end ≡ row.old.end + 2 }
{
    row.byte(DIGITS[usize::from(byte / 16)]);
    row.byte(DIGITS[usize::from(byte % 16)]);
}

// A policy, site by site.
fn put_policy<const N: usize>(row: &mut Row<N>, policy: &[u8; SITES])
    requires { row.old.end + 64 ≤ N }
    ensures { row.new.end ≡ row.old.end + 64 }
{
    for rights in policy {
        put_hex(row, *rights);
    }
}

// A variable and the site that it is bound to, behind a space unless it is the first.
fn put_binding<const N: usize>(row: &mut Row<N>, first: bool, u: usize, site: Site)
    requires { row.old.end + 24 ≤ N }
    ensures { (row.old.end < row.new.end) × (row.new.end ≤ row.old.end + 24) }
{
    if !first {
        row.byte(b' ');
    }
    row.byte(b'u');
    row.count(u);
    row.text(b"=s");
    row.count(usize::from(site.0));
}

// The variables that are bound, rising, or `-`.
fn put_bindings<const N: usize>(row: &mut Row<N>, bindings: &Bindings)
    requires { row.old.end + 768 ≤ N }
    ensures { (row.old.end ≤ row.new.end) × (row.new.end ≤ row.old.end + 768) }
{
    let from = row.len();
    for (u, bound) in bindings.iter().enumerate() {
        if let Some(site) = bound {
            put_binding(row, row.len() == from, u, *site);
        }
    }
    if row.len() == from {
        row.byte(b'-');
    }
}

// A thread: its site, its policy, its line, its bindings.
fn say_thread<W: Write>(output: &mut W, thread: &Thread) -> io::Result<()> {
    let mut row = Row::<896>::new();
    row.text(b"thread,s");
    row.count(usize::from(thread.site.0));
    row.byte(b',');
    put_policy(&mut row, &thread.policy);
    row.byte(b',');
    row.count(usize::from(thread.line));
    row.byte(b',');
    put_bindings(&mut row, &thread.bindings);
    row.byte(b'\n');
    row.say(output)
}

// A site behind a comma.
fn put_site<const N: usize>(row: &mut Row<N>, site: u8)
    requires { row.old.end + 12 ≤ N }
    ensures { (row.old.end ≤ row.new.end) × (row.new.end ≤ row.old.end + 12) }
{
    row.text(b",s");
    row.count(usize::from(site));
}

// The sites of the fields of a tuple.
fn put_fields<const N: usize>(row: &mut Row<N>, fields: &[u8])
    requires { row.old.end + 12 * length fields.now ≤ N }
    ensures { (row.old.end ≤ row.new.end) × (row.new.end ≤ row.old.end + 12 * length fields.now) }
{
    for site in fields {
        put_site(row, *site);
    }
}

// A tuple: its site, its fields.
fn say_tuple<W: Write>(output: &mut W, tuple: &Tuple) -> io::Result<()> {
    let mut row = Row::<80>::new();
    row.text(b"tuple");
    put_site(&mut row, tuple.site);
    put_fields(&mut row, tuple.fields.as_slice());
    row.byte(b'\n');
    row.say(output)
}

// The root lines of arrivals, each behind a comma.
fn put_roots<const N: usize>(row: &mut Row<N>, arrivals: &[Arrival])
    requires { row.old.end + 11 * length arrivals.now ≤ N }
    ensures { (row.old.end ≤ row.new.end) × (row.new.end ≤ row.old.end + 11 * length arrivals.now) }
{
    for arrival in arrivals {
        row.byte(b',');
        row.count(usize::from(arrival.root));
    }
}

// The roots of what was brought.
fn say_roots<W: Write>(output: &mut W, arrivals: &Arrivals) -> io::Result<()> {
    let mut row = Row::<2832>::new();
    row.text(b"roots");
    put_roots(&mut row, arrivals.as_slice());
    row.byte(b'\n');
    row.say(output)
}

// How many threads, tuples and lines there are.
fn say_counts<W: Write>(
    output: &mut W,
    threads: usize,
    tuples: usize,
    lines: usize,
) -> io::Result<()> {
    let mut row = Row::<48>::new();
    row.text(b"state,");
    row.count(threads);
    row.byte(b',');
    row.count(tuples);
    row.byte(b',');
    row.count(lines);
    row.byte(b'\n');
    row.say(output)
}

// The whole state: its sizes, its threads, its tuples, its lines, the roots of what was brought.
pub fn say_state<W: Write>(output: &mut W, state: &State) -> io::Result<()> {
    let lines = state.lines.count;
    say_counts(output, state.threads.count, state.tuples.count, lines)?;
    for thread in state.threads.as_slice() {
        say_thread(output, thread)?;
    }
    for tuple in state.tuples.as_slice() {
        say_tuple(output, tuple)?;
    }
    answers::say_count(output, b"lines,", lines)?;
    say_roots(output, &state.arrivals)
}
