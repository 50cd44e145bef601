//! A row as the entry of its table.
#![tactic(auto)]

ghost use Rattle.std.specs.Prelude.{◌≡◌, true, ◌%◌, ◌<◌, ltb};
ghost use Rattle.sets.specs.Lists.{all};
ghost use Rattle.klaim.specs.Process.{Out};
ghost use Rattle.klaim.specs.Reader.{in_limits, root_of};
ghost use Rattle.text.specs.Fields.{loc, slot};
ghost use Rattle.lines.specs.Lines.{acts_of, line_view};
ghost use Rattle.forms.specs.Forms.{process_data, root_data, sites_of};
ghost use Rattle.tables.specs.View.{action_line, tuple_view, root_view};
ghost use Rattle.entries.specs.Entries.{cut_loc, cut_slot, cut_line};

use forms::Process;
use klaim::{Fields, Loc, Site, Slot, Var};
use lines::{Acts, Line};
use tables::{Action, Root, Tuple};
use text::{Field, SiteName, Target};

// What stands in a table where it has no entries: a line, a tuple and a root that are blank.
pub const BLANK_LINE: tables::Line = tables::Line {
    action: Action::Nil,
};

pub const BLANK_TUPLE: Tuple = Tuple {
    site: 0,
    fields: Fields::One([0]),
};

pub const BLANK_ROOT: Root = Root { site: 0, line: 0 };

// How many numbers a byte can hold.
const BYTE_LIMIT: u16 = 256;

// A number as a byte: no number below its limit changes.
fn byte(n: u16) -> u8
    ensures { result ≡ n % 256 }
{
    (n % BYTE_LIMIT) as u8
}

// A field of a tuple.
fn site(s: SiteName) -> u8
    ensures { result ≡ s.0 % 256 }
{
    byte(s.0)
}

// A target or a field of `out`.
#[tactic(auto, unfolding(text::specs::Fields::loc))]
fn loc(target: Target) -> Loc
    ensures { result ≡ cut_loc (loc target) }
{
    match target {
        Target::Site(s) => Loc::At(Site(byte(s))),
        Target::Here => Loc::Here,
        Target::Variable(u) => Loc::Use(Var(byte(u))),
    }
}

// A field of `in` and `read`.
#[tactic(auto, unfolding(text::specs::Fields::slot))]
fn slot(field: Field) -> Slot
    ensures { result ≡ cut_slot (slot field) }
{
    match field {
        Field::Value(target) => Slot::Value(loc(target)),
        Field::Binder(u) => Slot::Bind(Var(byte(u))),
        Field::Wildcard => Slot::Wildcard,
    }
}

// What a line of `out` does.
fn put(acts: &Acts<Target>) -> Action
    ensures { action_line result ≡ cut_line (acts_of loc Out acts.now) }
{
    Action::Out {
        next: byte(acts.next),
        target: loc(acts.target),
        fields: acts.fields.map(loc),
    }
}

// What the line of a Q row does.
#[tactic(auto, unfolding(lines::specs::Lines::line_view, tables::specs::View::action_line))]
fn action(line: &Line) -> Action
    ensures { action_line result ≡ cut_line (line_view line.now) }
{
    match line {
        Line::Nil => Action::Nil,
        Line::Par { next, second } => Action::Par {
            next: byte(*next),
            second: byte(*second),
        },
        Line::Rep { next } => Action::Rep { next: byte(*next) },
        Line::Out(acts) => put(acts),
        Line::In(get) => Action::In {
            next: byte(get.next),
            target: loc(get.target),
            fields: get.fields.map(slot),
        },
        Line::Read(get) => Action::Read {
            next: byte(get.next),
            target: loc(get.target),
            fields: get.fields.map(slot),
        },
        Line::Eval {
            next,
            target,
            body,
            sandbox,
        } => Action::Eval {
            next: byte(*next),
            target: loc(*target),
            body: byte(*body),
            sandbox: byte(*sandbox),
        },
        Line::Accept { next, sandbox } => Action::Accept {
            next: byte(*next),
            sandbox: byte(*sandbox),
        },
    }
}

// The line of a Q row.
pub fn line(process: &Process) -> tables::Line
    requires { in_limits (process_data process.now) ≡ true }
    ensures { action_line result.action ≡ line_view process.now.line }
{
    tables::Line {
        action: action(&process.line),
    }
}

// The tuple of a T or an A row.
pub fn tuple(tuple: &forms::Tuple) -> Tuple
    requires { all (λ s. ltb s 32) (sites_of tuple.now) ≡ true }
    ensures { tuple_view result ≡ sites_of tuple.now }
{
    Tuple {
        site: byte(tuple.site),
        fields: tuple.fields.map(site),
    }
}

// The root of an L row.
#[tactic(auto, unfolding(klaim::specs::Reader::root_of, forms::specs::Forms::root_data))]
pub fn root(root: &forms::Root) -> Root
    requires site_low { root.now.site < 32 }
    requires line_low { root.now.line < 256 }
    ensures { root_view result ≡ root_of (root_data root.now) }
{
    Root {
        site: root.site as u8,
        line: root.line as u8,
    }
}
