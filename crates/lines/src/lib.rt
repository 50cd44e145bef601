//! The form of a process line.
#![tactic(auto)]

ghost use Rattle.std.specs.Prelude.{◌≡◌, List, ℕ, ◌+◌, ◌<◌, ◌≤◌, length, drop, map};
ghost use Rattle.sets.specs.Options.{option_of};
ghost use Rattle.klaim.specs.declared.Loc.{Loc};
ghost use Rattle.klaim.specs.Process as Spec;
ghost use Rattle.klaim.specs.Rows.{split, comma, at, loc_field, fields, line_nil, line_par, line_rep, line_out, line_eval, line_accept, line_form};
ghost use Rattle.text.specs.Pieces.{edge_limit};
ghost use Rattle.text.specs.Fields.{loc};
ghost use Rattle.klaim.specs.Fields.{items};
ghost use Rattle.lines.specs.Lines.{acts_of, acts_form, line_view};

use klaim::Fields;
use text::{CutRow, Field, Spoken, Target};

// The fields of a row from k on.
pub fn fields_at<T: Spoken>(row: &CutRow, k: usize) -> Option<Fields<T>>
    requires { k + 4 < edge_limit }
    ensures { option_of (λ f. map T.meaning (items f)) result ≡ fields T.form (drop k (split comma row.now.bytes.now)) }
{
    match row.count().saturating_sub(k) {
        1 => Some(Fields::One([row.read(k)?])),
        2 => Some(Fields::Two([row.read(k)?, row.read(k + 1)?])),
        3 => Some(Fields::Three([row.read(k)?, row.read(k + 1)?, row.read(k + 2)?])),
        4 => Some(Fields::Four([
            row.read(k)?,
            row.read(k + 1)?,
            row.read(k + 2)?,
            row.read(k + 3)?,
        ])),
        _ => None,
    }
}

// What `out`, `in` and `read` have: the line that follows, the target, the fields.
#[derive(Clone, Copy)]
pub struct Acts<T> {
    pub next: u16,
    pub target: Target,
    pub fields: Fields<T>,
}

// A process line: `next` is the line that follows, `second` the second branch, `body` the line that is sent.
#[derive(Clone, Copy)]
pub enum Line {
    Nil,
    Par {
        next: u16,
        second: u16,
    },
    Rep {
        next: u16,
    },
    Out(Acts<Target>),
    In(Acts<Field>),
    Read(Acts<Field>),
    Eval {
        next: u16,
        target: Target,
        body: u16,
        sandbox: u16,
    },
    Accept {
        next: u16,
        sandbox: u16,
    },
}

// The lines of each kind, whose word is the third field of their row.
fn read_nil(row: &CutRow) -> Option<Line>
    ensures { option_of line_view result ≡ line_nil (drop 2 (split comma row.now.bytes.now)) }
{
    if row.count() != 3 {
        return None;
    }
    Some(Line::Nil)
}

fn read_par(row: &CutRow) -> Option<Line>
    ensures { option_of line_view result ≡ line_par (drop 2 (split comma row.now.bytes.now)) }
{
    if row.count() != 5 {
        return None;
    }
    Some(Line::Par {
        next: row.number(3)?,
        second: row.number(4)?,
    })
}

fn read_rep(row: &CutRow) -> Option<Line>
    ensures { option_of line_view result ≡ line_rep (drop 2 (split comma row.now.bytes.now)) }
{
    if row.count() != 4 {
        return None;
    }
    Some(Line::Rep {
        next: row.number(3)?,
    })
}

// The target of a line.
fn target_at(row: &CutRow) -> Option<Target>
    ensures { option_of loc result ≡ loc_field (at (split comma row.now.bytes.now) 4) }
{
    row.read(4)
}

// The words behind the third field in `out`, `in` and `read`.
fn read_acts<T: Spoken>(row: &CutRow) -> Option<Acts<T>>
    ensures { (kind : ℕ → Loc → List T.Meaning → Spec.Line) → option_of (acts_of T.meaning kind) result ≡ acts_form T.form kind (split comma row.now.bytes.now) }
{
    Some(Acts {
        next: row.number(3)?,
        target: target_at(row)?,
        fields: fields_at(row, 5)?,
    })
}

fn read_out(row: &CutRow) -> Option<Line>
    ensures { option_of line_view result ≡ line_out (drop 2 (split comma row.now.bytes.now)) }
{
    let acts = read_acts(row)?;
    Some(Line::Out(acts))
}

fn read_eval(row: &CutRow) -> Option<Line>
    ensures { option_of line_view result ≡ line_eval (drop 2 (split comma row.now.bytes.now)) }
{
    if row.count() != 7 {
        return None;
    }
    Some(Line::Eval {
        next: row.number(3)?,
        target: target_at(row)?,
        body: row.number(5)?,
        sandbox: row.number(6)?,
    })
}

fn read_accept(row: &CutRow) -> Option<Line>
    ensures { option_of line_view result ≡ line_accept (drop 2 (split comma row.now.bytes.now)) }
{
    if row.count() != 5 {
        return None;
    }
    Some(Line::Accept {
        next: row.number(3)?,
        sandbox: row.number(4)?,
    })
}

// The line of a Q row.
pub fn line_at(row: &CutRow) -> Option<Line>
    ensures { option_of line_view result ≡ line_form (drop 2 (split comma row.now.bytes.now)) }
{
    let word = row.field(2);
    if text::same(word, b"nil") {
        return read_nil(row);
    }
    if text::same(word, b"par") {
        return read_par(row);
    }
    if text::same(word, b"rep") {
        return read_rep(row);
    }
    if text::same(word, b"out") {
        return read_out(row);
    }
    if text::same(word, b"in") {
        return Some(Line::In(read_acts(row)?));
    }
    if text::same(word, b"read") {
        return Some(Line::Read(read_acts(row)?));
    }
    if text::same(word, b"eval") {
        return read_eval(row);
    }
    if text::same(word, b"accept") {
        return read_accept(row);
    }
    None
}
