//! The test of a template: no variable that it binds stands in it twice.
#![tactic(auto)]

ghost use Rattle.std.specs.Prelude.{◌≡◌, count_by};
ghost use Rattle.std.specs.List.{list_all};
ghost use Rattle.klaim.specs.Process.{clash, template};
ghost use Rattle.klaim.specs.Fields.{items};
ghost use Rattle.lines.specs.Lines.{line_view};
ghost use Rattle.forms.specs.Forms.{row_data};
ghost use Rattle.binders.specs.Binders.{names, single};

use forms::Row;
use klaim::Fields;
use lines::Line;
use text::{Field, Target};

// Whether a field is u or `!u`.
fn names(field: Field, u: u16) -> bool
    ensures { result ≡ names u field }
{
    match field {
        Field::Value(Target::Variable(v)) => u == v,
        Field::Value(_) => false,
        Field::Binder(v) => u == v,
        Field::Wildcard => false,
    }
}

// How often u or `!u` stands in the fields.
fn times(fields: &Fields<Field>, u: u16) -> usize
    ensures { result ≡ count_by (names u) (items fields.now) }
{
    fields.as_slice().iter().filter(|f| names(**f, u)).count()
}

// Whether a field is no binder, or its variable stands in the fields once.
fn once(fields: &Fields<Field>, field: Field) -> bool
    ensures { result ≡ single (items fields.now) field }
{
    match field {
        Field::Binder(u) => times(fields, u) <= 1,
        _ => true,
    }
}

fn apart(fields: &Fields<Field>) -> bool
    ensures { result ≡ list_all (single (items fields.now)) (items fields.now) }
{
    fields.as_slice().iter().all(|f| once(fields, *f))
}

fn line_clashes(line: &Line) -> bool
    ensures { result ≡ clash (template (line_view line.now)) }
{
    match line {
        Line::In(get) => !apart(&get.fields),
        Line::Read(get) => !apart(&get.fields),
        _ => false,
    }
}

// 7: whether a template has `!u` twice, or `!u` and u.
pub fn clashes(row: &Row) -> bool
    ensures { result ≡ clash (template (row_data row.now).process) }
{
    match row {
        Row::Q(process) => line_clashes(&process.line),
        _ => false,
    }
}
