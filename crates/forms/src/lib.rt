//! The form of a row.
#![tactic(auto)]

ghost use Rattle.std.specs.Prelude.{◌≡◌, ℕ};
ghost use Rattle.sets.specs.Options.{option_of};
ghost use Rattle.klaim.specs.Rows.{split, comma, row_n, row_pair, row_d, row_tuple, row_l, row_b, row_q, row_of};
ghost use Rattle.forms.specs.Forms.{group_number, group_of, size_data, pair_data, box_data, tuple_data, root_data, process_data, bound_data, row_data};

mod rows;

pub use rows::{Bound, Group, Pair, Process, Root, Row, Sandbox, Tuple};
use text::CutRow;

impl Group {
    // Its place in the order of document 01, from 1.
    pub fn number(self) -> u8
        ensures { result ≡ group_number self }
    {
        self as u8 + 1
    }
}

impl Row {
    pub fn group(&self) -> Group
        ensures { result ≡ group_of self.now }
    {
        match self {
            Row::N(_) => Group::N,
            Row::R(_) => Group::R,
            Row::D(_) => Group::D,
            Row::T(_) => Group::T,
            Row::L(_) => Group::L,
            Row::Q(_) => Group::Q,
            Row::B(_) => Group::B,
            Row::A(_) => Group::A,
            Row::E(_) => Group::E,
        }
    }
}

// What stands in the rows of each group.
fn read_size(row: &CutRow) -> Option<u16>
    ensures { option_of size_data result ≡ row_n (split comma row.now.bytes.now) }
{
    if row.count() != 2 {
        return None;
    }
    row.number(1)
}

// R and E rows.
fn read_pair(row: &CutRow) -> Option<Pair>
    ensures { (g : ℕ) → option_of (pair_data g) result ≡ row_pair g (split comma row.now.bytes.now) }
{
    if row.count() != 4 {
        return None;
    }
    let from = row.site(1)?;
    let to = row.site(2)?;
    let rights = row.rights(3)?;
    Some(Pair { from, to, rights })
}

fn read_sandbox(row: &CutRow) -> Option<Sandbox>
    ensures { option_of box_data result ≡ row_d (split comma row.now.bytes.now) }
{
    if row.count() != 4 {
        return None;
    }
    let number = row.number(1)?;
    let toward = row.toward(2)?;
    let rights = row.box_rights(3)?;
    Some(Sandbox {
        number,
        toward,
        rights,
    })
}

// T and A rows.
fn read_tuple(row: &CutRow) -> Option<Tuple>
    ensures { (g : ℕ) → option_of (tuple_data g) result ≡ row_tuple g (split comma row.now.bytes.now) }
{
    Some(Tuple {
        site: row.site(1)?,
        fields: lines::fields_at(row, 2)?,
    })
}

fn read_root(row: &CutRow) -> Option<Root>
    ensures { option_of root_data result ≡ row_l (split comma row.now.bytes.now) }
{
    if row.count() != 3 {
        return None;
    }
    Some(Root {
        site: row.site(1)?,
        line: row.number(2)?,
    })
}

fn read_process(row: &CutRow) -> Option<Process>
    ensures { option_of process_data result ≡ row_q (split comma row.now.bytes.now) }
{
    Some(Process {
        number: row.number(1)?,
        line: lines::line_at(row)?,
    })
}

fn read_bound(row: &CutRow) -> Option<Bound>
    ensures { option_of bound_data result ≡ row_b (split comma row.now.bytes.now) }
{
    if row.count() != 3 {
        return None;
    }
    Some(Bound {
        variable: row.variable(1)?,
        site: row.site(2)?,
    })
}

// The form of a row, by its letter.
pub fn row_of(row: &CutRow) -> Option<Row>
    ensures { option_of row_data result ≡ row_of row.now.bytes.now }
{
    let [letter] = row.field(0) else {
        return None;
    };
    match *letter {
        b'N' => Some(Row::N(read_size(row)?)),
        b'R' => Some(Row::R(read_pair(row)?)),
        b'D' => Some(Row::D(read_sandbox(row)?)),
        b'T' => Some(Row::T(read_tuple(row)?)),
        b'L' => Some(Row::L(read_root(row)?)),
        b'Q' => Some(Row::Q(read_process(row)?)),
        b'B' => Some(Row::B(read_bound(row)?)),
        b'A' => Some(Row::A(read_tuple(row)?)),
        b'E' => Some(Row::E(read_pair(row)?)),
        _ => None,
    }
}
