//! Rows of tuples held against sets of sites: one set for a tuple's site, and one for each field.
#![tactic(auto)]

ghost use Rattle.std.specs.Prelude.{◌≡◌, true, not, ◌∷◌, map, ℕ, ◌<◌, ◌≤◌, ◌+◌, ◌*◌, ◌^◌, min, ltb, length, take, get_or};
ghost use Rattle.sets.specs.Lists.{All, ◌&◌, either, imp, all, any, keep, same, below, fits, product};
ghost use Rattle.sets.specs.Bits.{mem, sites};
ghost use Rattle.klaim.specs.Analysis.{choices as all_choices};
ghost use Rattle.klaim.specs.Invariant.{all_below, distinct};
ghost use Rattle.klaim.specs.Fields.{items};
ghost use Rattle.tables.specs.View.{Tuples as Rows, row_at, tuple_view, tuples_of};
ghost use Rattle.matching.specs.Index.{in_column, in_rows, in_index, Indexed, Entered, Low, Long};

use klaim::Fields;
use std::array;
use tables::{SITES, Tuple, Tuples};

// The sites of a row at most: its own, then four fields.
pub const ROW: usize = 5;

// More than the rows of a table.
const MANY: u32 = 257;

// All sites, and half their number.
pub const ANY: u32 = 4294967295;

const HALF: u32 = 16;

// How many sites a set has.
fn count_sites(set: u32) -> u32
    ensures { (result ≡ length (sites set)) × (result ≤ 32) }
{
    set.count_ones()
}

// The product, or 257 where it is more.
fn times(c: u32, p: u32) -> u32
    requires { (c ≤ 32) × (p ≤ 257) }
    ensures { result ≡ min (c * p) 257 }
{
    MANY.min(c * p)
}

// How many choices of one site from each of the first m sets there are, or 257 where there are more.
fn choices(reaches: [u32; ROW], m: usize) -> u32
    requires { m ≤ 5 }
    ensures { result ≡ min (product (map sites (take m reaches))) 257 }
{
    let mut p: u32 = 1;
    for j in (0..m).rev() {
        p = times(count_sites(reaches[j]), p);
    }
    p
}

// The columns of an index: in column 0 stands how many sites a row has, in the others its sites in order.
const COLUMNS: usize = ROW + 1;

// The words of a set of rows.
const WORDS: usize = 4;

const CELLS: usize = COLUMNS * SITES * WORDS;

// For each column and each number the set of the rows that have it there: from place 128 * c + 4 * v on, that of the rows with v in
// column c.
#[derive(Clone, Copy)]
pub struct RowIndex {
    pub sets: [u64; CELLS],
}

// A set of rows: row i is bit i % 64 of word i / 64.
#[derive(Clone, Copy)]
struct RowSet {
    words: [u64; WORDS],
}

// The site at place j of a tuple, 0 past its end.
fn site_at(tuple: &Tuple, j: usize) -> u8
    ensures { result ≡ get_or (tuple_view tuple.now) j 0 }
{
    if j == 0 {
        return tuple.site;
    }
    let fields = tuple.fields.as_slice();
    if j <= fields.len() { fields[j - 1] } else { 0 }
}

// What a tuple has in column c.
fn key(tuple: &Tuple, c: usize) -> usize
    ensures { (result ≡ in_column (tuple_view tuple.now) c) × (result < 32) }
{
    if c == 0 {
        return tuple.len();
    }
    usize::from(site_at(tuple, c - 1) % 32)
}

impl RowIndex {
    // The index of the rows.
    pub fn of(rows: &Tuples) -> RowIndex
        ensures { Indexed rows.now result.sets }
    {
        let mut index = RowIndex { sets: [0; CELLS] };
        for (i, row) in rows.as_slice().iter().enumerate() {
            index.enter(row, i);
        }
        index
    }

    // A row put into the index, as row i.
    fn enter(&mut self, row: &Tuple, i: usize)
        requires { i < 256 }
        ensures { Entered (tuple_view row.now) i 6 self.old.sets self.new.sets }
    {
        let bit = 1u64 << (i % 64);
        for c in 0..COLUMNS {
            let at = 128 * c + 4 * key(row, c) + i / 64;
            self.sets[at] |= bit;
        }
    }

    // The rows with v in the column.
    fn rows_with(&self, column: usize, v: usize) -> RowSet
        requires { (column < 6) × (v < 32) }
        ensures { (i : ℕ) → i < 256 → in_rows result.words i ≡ in_index self.now.sets column v i }
    {
        let at = 128 * column + 4 * v;
        RowSet {
            words: array::from_fn(|w| self.sets[at + w]),
        }
    }
}

fn in_both(x: RowSet, y: RowSet) -> RowSet
    ensures { (i : ℕ) → i < 256 → in_rows result.words i ≡ (in_rows x.words i & in_rows y.words i) }
{
    RowSet {
        words: array::from_fn(|w| x.words[w] & y.words[w]),
    }
}

fn in_either(x: RowSet, y: RowSet) -> RowSet
    ensures { (i : ℕ) → i < 256 → in_rows result.words i ≡ either (in_rows x.words i) (in_rows y.words i) }
{
    RowSet {
        words: array::from_fn(|w| x.words[w] | y.words[w]),
    }
}

fn in_first(x: RowSet, y: RowSet) -> RowSet
    ensures { (i : ℕ) → i < 256 → in_rows result.words i ≡ (in_rows x.words i & not (in_rows y.words i)) }
{
    RowSet {
        words: array::from_fn(|w| x.words[w] ^ (x.words[w] & y.words[w])),
    }
}

// The rows whose site in column c is in the set.
fn rows_in(index: &RowIndex, c: usize, set: u32) -> RowSet
    requires { c < 6 }
    ensures { (rows : Rows) → Indexed rows index.now.sets → (i : ℕ) → i < 256 → in_rows result.words i ≡ (ltb i rows.count & mem (in_column (row_at rows i) c) set) }
{
    let mut r = RowSet { words: [0; WORDS] };
    let mut rest = set;
    // A `while`: each turn takes the least site out of the rest, and only the sites of the set have a turn.
    while rest != 0 {
        let v = rest.trailing_zeros();
        r = in_either(r, index.rows_with(c, v as usize));
        rest &= rest - 1;
    }
    r
}

// Of some of the rows those whose site in column c is in the set. A set of all sites leaves them as they are, without a look at the
// index; where it has most sites, those with another site are left out.
fn kept(index: &RowIndex, had: RowSet, c: usize, set: u32) -> RowSet
    requires { c < 6 }
    ensures { (rows : Rows) → Indexed rows index.now.sets → (i : ℕ) → i < 256 → in_column (row_at rows i) c < 32 → (in_rows had.words i ≡ true → i < rows.count) → in_rows result.words i ≡ (in_rows had.words i & mem (in_column (row_at rows i) c) set) }
{
    if set == ANY {
        return had;
    }
    if set.count_ones() <= HALF {
        return in_both(had, rows_in(index, c, set));
    }
    in_first(had, rows_in(index, c, ANY - set))
}

// Of some rows with m sites those with each site within its set.
fn narrowed(index: &RowIndex, had: RowSet, reaches: [u32; ROW], m: usize) -> RowSet
    requires { m ≤ 5 }
    ensures { (rows : Rows) → Indexed rows index.now.sets → Low rows → Long rows m had.words → (i : ℕ) → i < 256 → in_rows result.words i ≡ (in_rows had.words i & fits (map sites (take m reaches)) (row_at rows i)) }
{
    let mut r = had;
    for j in (0..m).rev() {
        r = kept(index, r, j + 1, reaches[j]);
    }
    r
}

// The rows with m sites, each within its set.
fn chosen(index: &RowIndex, reaches: [u32; ROW], m: usize) -> RowSet
    requires { m ≤ 5 }
    ensures { (rows : Rows) → Indexed rows index.now.sets → Low rows → (i : ℕ) → i < 256 → in_rows result.words i ≡ (ltb i rows.count & fits (map sites (take m reaches)) (row_at rows i)) }
{
    let had = index.rows_with(0, m);
    narrowed(index, had, reaches, m)
}

// How many rows a set has.
fn count_rows(rows: RowSet) -> u32
    ensures { (result ≡ length (keep (in_rows rows.words) (below 256))) × (result ≤ 256) }
{
    let w = rows.words;
    w[0].count_ones() + w[1].count_ones() + (w[2].count_ones() + w[3].count_ones())
}

// Whether two sets have the same rows.
fn same_rows(x: RowSet, y: RowSet) -> bool
    ensures { (result ≡ true → (i : ℕ) → i < 256 → in_rows x.words i ≡ in_rows y.words i) × (((i : ℕ) → i < 256 → in_rows x.words i ≡ in_rows y.words i) → result ≡ true) }
{
    x.words == y.words
}

// Whether each row that lies within the sets `want` lies within the sets `allow` too.
pub fn every_bound(index: &RowIndex, want: [u32; ROW], allow: [u32; ROW], m: usize) -> bool
    requires { m ≤ 5 }
    ensures { (rows : Rows) → Indexed rows index.now.sets → Low rows → result ≡ all (λ row. imp (fits (map sites (take m want)) row) (fits (map sites (take m allow)) row)) (tuples_of rows) }
{
    let wanted = chosen(index, want, m);
    let both = narrowed(index, wanted, allow, m);
    same_rows(wanted, both)
}

// Whether every choice of one site from each of the m sets has a row.
// The rows are distinct, so it is enough to count those within the sets.
pub fn every_choice(index: &RowIndex, reaches: [u32; ROW], m: usize) -> bool
    requires { m ≤ 5 }
    ensures { (rows : Rows) → Indexed rows index.now.sets → Low rows → distinct (tuples_of rows) ≡ true → result ≡ all_choices (map sites (take m reaches)) (λ t. any (same t) (tuples_of rows)) }
{
    let need = choices(reaches, m);
    if MANY <= need {
        return false;
    }
    let have = count_rows(chosen(index, reaches, m));
    have == need
}

// The given set for the target, then one for each field.
pub fn sets_of<T: Copy, F: Fn(T) -> u32>(fields: &Fields<T>, first: u32, set: F) -> [u32; ROW]
    requires { All (F.pre set) (items fields.now) }
    ensures { (g : T → ℕ) → ((x : T) (y : ℕ) → F.post set x y → y ≡ g x) → take (length (items fields.now) + 1) result ≡ first ∷ map g (items fields.now) }
{
    let mut sets = [first, 0, 0, 0, 0];
    for (j, x) in fields.as_slice().iter().enumerate() {
        sets[j + 1] = set(*x);
    }
    sets
}

// For each site of a tuple the set of it alone.
fn singles(tuple: &Tuple) -> [u32; ROW]
    requires { all_below 32 (tuple_view tuple.now) ≡ true }
    ensures { take (length (tuple_view tuple.now)) result ≡ map (λ v. 2 ^ v) (tuple_view tuple.now) }
{
    sets_of(&tuple.fields, sets::single(tuple.site), |v| sets::single(v))
}

// Whether the tuple is one of the rows.
pub fn has_row(index: &RowIndex, tuple: &Tuple) -> bool
    requires { all_below 32 (tuple_view tuple.now) ≡ true }
    ensures { (rows : Rows) → Indexed rows index.now.sets → Low rows → result ≡ any (same (tuple_view tuple.now)) (tuples_of rows) }
{
    let within = chosen(index, singles(tuple), tuple.len());
    count_rows(within) != 0
}
