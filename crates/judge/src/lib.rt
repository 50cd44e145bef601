//! The tests of a row that need no other row: its limits and its sites.
#![tactic(auto)]

ghost use Rattle.std.specs.Prelude.{◌≡◌, List, [], ◌∷◌, not, ltb, ℕ};
ghost use Rattle.sets.specs.Lists.{all, concat, ◌⧺◌};
ghost use Rattle.klaim.specs.Limits.{box_limit, var_limit, line_limit};
ghost use Rattle.klaim.specs.declared.Slot.TheVariants.{Value};
ghost use Rattle.klaim.specs.Process.{boxes_of, children, sites_in, used_in, bound_in, slots_of};
ghost use Rattle.klaim.specs.Reader.{in_limits, absent};
ghost use Rattle.text.specs.Fields.{loc, slot, sites_to};
ghost use Rattle.klaim.specs.Fields.{items};
ghost use Rattle.lines.specs.Lines.{line_view};
ghost use Rattle.forms.specs.Forms.{process_data, row_data, sites_of};

use forms::{Pair, Process, Row, Tuple};
use klaim::Fields;
use lines::Line;
use text::{Field, SiteName, Target, Toward};

// The limits of document 01: of sites, variables and sandboxes, and of lines.
const NUMBERS: u16 = 32;

const LINES: u16 = 256;

// The sites and the variables that a target or a field has.
trait Numbered: Copy {
    ghost sites: { Self → List ℕ };

    ghost variables: { Self → List ℕ };

    fn low_site(self, n: u16) -> bool
        ensures { result ≡ all (λ s. ltb s n) (sites self) };

    fn low_variable(self) -> bool
        ensures { result ≡ all (λ u. ltb u var_limit) (variables self) };
}

impl Numbered for SiteName {
    ghost sites = { λ s. s.0 ∷ [] };

    ghost variables = { λ s. [] };

    fn low_site(self, n: u16) -> bool {
        self.0 < n
    }

    fn low_variable(self) -> bool {
        true
    }
}

impl Numbered for Target {
    ghost sites = { λ t. sites_in (Value (loc t)) };

    ghost variables = { λ t. used_in (Value (loc t)) ⧺ [] };

    fn low_site(self, n: u16) -> bool {
        match self {
            Target::Site(s) => s < n,
            Target::Here => true,
            Target::Variable(_) => true,
        }
    }

    fn low_variable(self) -> bool {
        match self {
            Target::Variable(u) => u < NUMBERS,
            Target::Site(_) => true,
            Target::Here => true,
        }
    }
}

impl Numbered for Field {
    ghost sites = { λ f. sites_in (slot f) };

    ghost variables = { λ f. used_in (slot f) ⧺ bound_in (slot f) };

    fn low_site(self, n: u16) -> bool {
        match self {
            Field::Value(target) => target.low_site(n),
            Field::Binder(_) => true,
            Field::Wildcard => true,
        }
    }

    fn low_variable(self) -> bool {
        match self {
            Field::Value(target) => target.low_variable(),
            Field::Binder(u) => u < NUMBERS,
            Field::Wildcard => true,
        }
    }
}

// The same of all fields.
fn low_sites_of<T: Numbered>(fields: &Fields<T>, n: u16) -> bool
    ensures { result ≡ all (λ s. ltb s n) (concat T.sites (items fields.now)) }
{
    fields.as_slice().iter().all(|f| f.low_site(n))
}

fn low_variables_of<T: Numbered>(fields: &Fields<T>) -> bool
    ensures { result ≡ all (λ u. ltb u var_limit) (concat T.variables (items fields.now)) }
{
    fields.as_slice().iter().all(|f| f.low_variable())
}

// The numbers of a line, in the order of the limits: its sandbox, its variables, its sites, its children.
fn low_box(line: &Line) -> bool
    ensures { result ≡ all (λ k. ltb k box_limit) (boxes_of (line_view line.now)) }
{
    match line {
        Line::Eval { sandbox, .. } | Line::Accept { sandbox, .. } => *sandbox < NUMBERS,
        _ => true,
    }
}

fn low_variables(line: &Line) -> bool
    ensures { result ≡ all (λ u. ltb u var_limit) (concat used_in (slots_of (line_view line.now)) ⧺ concat bound_in (slots_of (line_view line.now))) }
{
    match line {
        Line::Out(put) => put.target.low_variable() && low_variables_of(&put.fields),
        Line::In(get) | Line::Read(get) => {
            get.target.low_variable() && low_variables_of(&get.fields)
        }
        Line::Eval { target, .. } => target.low_variable(),
        _ => true,
    }
}

fn low_line(line: &Line, n: u16) -> bool
    ensures { result ≡ all (λ s. ltb s n) (concat sites_in (slots_of (line_view line.now))) }
{
    match line {
        Line::Out(put) => put.target.low_site(n) && low_sites_of(&put.fields, n),
        Line::In(get) | Line::Read(get) => get.target.low_site(n) && low_sites_of(&get.fields, n),
        Line::Eval { target, .. } => target.low_site(n),
        _ => true,
    }
}

fn low_children(line: &Line) -> bool
    ensures { result ≡ all (λ q. ltb q line_limit) (children (line_view line.now)) }
{
    match line {
        Line::Nil => true,
        Line::Par { next, second } => *next < LINES && *second < LINES,
        Line::Eval { next, body, .. } => *next < LINES && *body < LINES,
        Line::Out(put) => put.next < LINES,
        Line::In(get) | Line::Read(get) => get.next < LINES,
        Line::Rep { next } | Line::Accept { next, .. } => *next < LINES,
    }
}

// Whether both sites of an R or an E row are below n.
fn low_pair(pair: &Pair, n: u16) -> bool
    ensures { result ≡ all (λ s. ltb s n) (pair.now.from ∷ pair.now.to ∷ []) }
{
    pair.from < n && pair.to < n
}

// Whether the site of a D row is below n, if it has one.
fn low_toward(toward: Toward, n: u16) -> bool
    ensures { result ≡ all (λ s. ltb s n) (sites_to toward) }
{
    match toward {
        Toward::Site(s) => s < n,
        Toward::Own => true,
    }
}

// Whether the sites of a T or an A row are below n.
fn low_tuple(tuple: &Tuple, n: u16) -> bool
    ensures { result ≡ all (λ s. ltb s n) (sites_of tuple.now) }
{
    tuple.site < n && low_sites_of(&tuple.fields, n)
}

// The same of a Q row.
fn low_process(process: &Process) -> bool
    ensures { result ≡ in_limits (process_data process.now) }
{
    let line = &process.line;
    low_box(line)
        && low_variables(line)
        && low_line(line, NUMBERS)
        && process.number < LINES
        && low_children(line)
}

// 2: whether each number of a row is within its limit.
pub fn in_limits(row: &Row) -> bool
    ensures { result ≡ in_limits (row_data row.now) }
{
    match row {
        Row::N(n) => 1 <= *n && *n <= NUMBERS,
        Row::R(pair) | Row::E(pair) => low_pair(pair, NUMBERS),
        Row::D(sandbox) => sandbox.number < NUMBERS && low_toward(sandbox.toward, NUMBERS),
        Row::T(tuple) | Row::A(tuple) => low_tuple(tuple, NUMBERS),
        Row::L(root) => root.site < NUMBERS && root.line < LINES,
        Row::Q(process) => low_process(process),
        Row::B(bound) => bound.variable < NUMBERS && bound.site < NUMBERS,
    }
}

// 4: whether each site of a row is below n.
pub fn low_sites(row: &Row, n: u16) -> bool
    ensures { result ≡ not (absent n (row_data row.now)) }
{
    match row {
        Row::N(_) => true,
        Row::R(pair) | Row::E(pair) => low_pair(pair, n),
        Row::D(sandbox) => low_toward(sandbox.toward, n),
        Row::T(tuple) | Row::A(tuple) => low_tuple(tuple, n),
        Row::L(root) => root.site < n,
        Row::Q(process) => low_line(&process.line, n),
        Row::B(bound) => bound.site < n,
    }
}
