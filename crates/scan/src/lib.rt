//! The rows of a text, one after the other: the row at a place, the tests of it that need no table, and a reader that takes them in.
#![tactic(auto)]

ghost use Rattle.std.specs.Prelude.{◌≡◌, Bool, List, [], ◌∷◌, ◌++◌, ℕ, ◌+◌, ◌<◌, leb, length, OnOk, option_copied};
ghost use Rattle.std.proofs.Math.Option.{some};
ghost use Rattle.sets.specs.Options.{option_of};
ghost use Rattle.klaim.specs.Rows as Spec;
ghost use Rattle.klaim.specs.Rows.{newline};
ghost use Rattle.klaim.specs.Reader.{Text, of_group, full, repeated, site_count, judge};
ghost use Rattle.text.specs.Pieces.{end_of};
ghost use Rattle.forms.specs.Forms.{group_number, row_data};
ghost use Rattle.scan.specs.Progress.{rows_left, Taken, RowsRead};
ghost use Rattle.scan.specs.Reasons.{limited_of, early_of, late_of, judged_by, fitting, Passed};
ghost use Rattle.scan.specs.Tallies.{last_number, counted_of, start_of};

use forms::{Group, Row};
use klaim::{Reason, Refusal};

// What is kept of the rows above, besides the tables: the n of the text, the last group, and whether Q rows are numbered in turn.
#[derive(Clone, Copy)]
pub struct Tally {
    pub size: u16,
    pub last: Option<Group>,
    pub turn: bool,
}

impl Tally {
    // The tally of no rows, n given.
    pub fn start(n: u8) -> Tally
        ensures { result ≡ start_of n }
    {
        Tally {
            size: u16::from(n),
            last: None,
            turn: true,
        }
    }

    // Whether a row of the group may follow: groups stand in order.
    pub fn in_order(&self, group: Group) -> bool
        ensures { result ≡ leb (last_number self.now.last) (group_number group) }
    {
        match self.last {
            None => true,
            Some(last) => last <= group,
        }
    }

    // A row let through is counted, below the lines that stand above.
    pub fn count(&mut self, row: &Row, lines: usize)
        ensures { self.new ≡ counted_of row.now lines self.old }
    {
        self.last = Some(row.group());
        match row {
            Row::N(n) => self.size = *n,
            Row::Q(process) => self.turn &= usize::from(process.number) == lines,
            _ => {}
        }
    }
}

// A row, if it has a form, and where it ends.
#[derive(Clone, Copy)]
pub struct NextRow {
    pub row: Option<Row>,
    pub end: usize,
}

// The row that begins at `at`. Bytes behind the last newline are no row.
pub fn row_at(s: &[u8], at: usize) -> NextRow
    requires { at < length s.now }
    ensures end_value { result.end ≡ end_of newline s.now at }
    ensures at_value { rows_left s.now at ≡ option_of row_data result.row ∷ rows_left s.now (result.end + 1) }
{
    let cut = text::cut(s, at);
    let end = at + cut.bytes.len();
    if end < s.len() {
        let row = forms::row_of(&cut);
        return NextRow { row, end };
    }
    NextRow { row: None, end }
}

// Limits and place, of a row that has a form: 2 and 3.
#[tactic(auto, unfolding(sets::specs::Lists::either))]
fn limited(low: bool, full: bool, placed: bool) -> Result<(), Reason>
    ensures { result ≡ limited_of low full placed }
{
    if full || !low {
        return Err(Reason::Limit);
    }
    if !placed {
        return Err(Reason::Place);
    }
    Ok(())
}

// Form, limits and place: 1, 2 and 3.
pub fn early(row: Option<&Row>, full: bool, placed: bool) -> Result<(), Reason>
    ensures { result ≡ early_of (option_of row_data (option_copied row.entry)) full placed }
{
    let Some(row) = row else {
        return Err(Reason::Form);
    };
    limited(judge::in_limits(row), full, placed)
}

// Sites and template: 4 and 7.
pub fn late(row: &Row, n: u16) -> Result<(), Reason>
    ensures { result ≡ late_of n (row_data row.now) }
{
    if !judge::low_sites(row, n) {
        return Err(Reason::Site);
    }
    if binders::clashes(row) {
        return Err(Reason::Clash);
    }
    Ok(())
}

// What takes in the rows of a text.
pub trait Reader {
    // It reads this text, and holds these rows of it.
    ghost holds: { Text → List Spec.Row → Self → Type 0 };

    // What its tables say: no row of this group may follow.
    ghost full_at: { ℕ → Self → Bool };

    // What its tally says: a row of this group may follow.
    ghost placed_at: { ℕ → Self → Bool };

    // Whether no row of this group may follow.
    fn is_full(&self, group: Group) -> bool
        ensures told { result ≡ full_at (group_number group) self.now }
        ensures meant { (t : Text) (above : List Spec.Row) → holds t above self.now → result ≡ full t (group_number group) (length (of_group (group_number group) above)) };

    // Whether a row of this group may follow the rows above.
    fn is_placed(&self, group: Group) -> bool
        ensures told { result ≡ placed_at (group_number group) self.now }
        ensures meant { (t : Text) (above : List Spec.Row) → holds t above self.now → (r : Spec.Row) → r.group ≡ group_number group → result ≡ fitting t above r };

    // Whether the row stands above.
    fn is_seen(&self, row: &Row) -> bool
        requires { Passed (row_data row.now) (full_at (row_data row.now).group self.now) (placed_at (row_data row.now).group self.now) }
        ensures { (t : Text) (above : List Spec.Row) → holds t above self.now → result ≡ repeated above (row_data row.now) };

    // The n of the text.
    fn size(&self) -> u16
        ensures { (t : Text) (above : List Spec.Row) → holds t above self.now → result ≡ site_count t above };

    // The row put into its table, and counted.
    fn put(&mut self, row: &Row)
        requires { Passed (row_data row.now) (full_at (row_data row.now).group self.old) (placed_at (row_data row.now).group self.old) }
        ensures { (t : Text) (above : List Spec.Row) → holds t above self.old → holds t (above ++ (row_data row.now ∷ [])) self.new };
}

// Whether a row that has a form is let through.
fn admits<R: Reader>(reader: &R, row: &Row) -> Result<(), Reason>
    ensures judged { (t : Text) (above : List Spec.Row) → R.holds t above reader.now → judge t above (some (row_data row.now)) ≡ judged_by result (row_data row.now) }
    ensures passed { OnOk result (Passed (row_data row.now) (R.full_at (row_data row.now).group reader.now) (R.placed_at (row_data row.now).group reader.now)) }
{
    let group = row.group();
    early(Some(row), reader.is_full(group), reader.is_placed(group))?;
    if reader.is_seen(row) {
        return Err(Reason::Place);
    }
    late(row, reader.size())
}

// The row taken in, or why it is refused.
fn take<R: Reader>(reader: &mut R, row: Option<&Row>) -> Result<(), Reason>
    ensures { (t : Text) (above : List Spec.Row) → R.holds t above reader.old → Taken t above (option_of row_data (option_copied row.entry)) result (λ r. R.holds t (above ++ (r ∷ [])) reader.new) }
{
    let Some(row) = row else {
        return early(None, false, false);
    };
    admits(reader, row)?;
    reader.put(row);
    Ok(())
}

// The rows of a text, taken in one after the other, up to the first that is refused. Not inlined: in a body that reads them the tables
// of a net would be copied once more.
#[inline(never)]
pub fn read<R: Reader>(reader: &mut R, s: &[u8]) -> Result<(), Refusal>
    ensures { (t : Text) → R.holds t [] reader.old → RowsRead t s.now (λ rows. R.holds t rows reader.new) result }
{
    let mut at = 0;
    let mut count = 0;
    // By hand: each row says where the next one begins.
    while at < s.len() {
        let next = row_at(s, at);
        count += 1;
        if let Err(why) = take(reader, next.row.as_ref()) {
            return Err(Refusal { why, row: count });
        }
        at = next.end + 1;
    }
    Ok(())
}
