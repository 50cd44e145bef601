// What stands in a row of good form.
ghost use Rattle.std.specs.Prelude.{◌<◌};
ghost use Rattle.text.specs.Fields.{unsaid};

use klaim::Fields;
use lines::Line;
use text::{SiteName, Toward};

// The groups of rows, in the order of document 01.
#[derive(Clone, Copy, PartialEq, Eq, PartialOrd, Ord)]
pub enum Group {
    N,
    R,
    D,
    T,
    L,
    Q,
    B,
    A,
    E,
}

// An R or an E row.
#[derive(Clone, Copy)]
pub struct Pair {
    pub from: u16,
    pub to: u16,
    pub rights: u8,
    pub ghost some: { 0 < rights },
}

// A D row.
#[derive(Clone, Copy)]
pub struct Sandbox {
    pub number: u16,
    pub toward: Toward,
    pub rights: u8,
    pub ghost said: { rights < unsaid },
}

// A T or an A row: the site at which the tuple stands, and its fields.
#[derive(Clone, Copy)]
pub struct Tuple {
    pub site: u16,
    pub fields: Fields<SiteName>,
}

// An L row.
#[derive(Clone, Copy)]
pub struct Root {
    pub site: u16,
    pub line: u16,
}

// A Q row.
#[derive(Clone, Copy)]
pub struct Process {
    pub number: u16,
    pub line: Line,
}

// A B row.
#[derive(Clone, Copy)]
pub struct Bound {
    pub variable: u16,
    pub site: u16,
}

// A row of good form, by its group; an N row has the number of sites.
#[derive(Clone, Copy)]
pub enum Row {
    N(u16),
    R(Pair),
    D(Sandbox),
    T(Tuple),
    L(Root),
    Q(Process),
    B(Bound),
    A(Tuple),
    E(Pair),
}
