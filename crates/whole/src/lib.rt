//! Tests over a whole text: its lines in order, each named once, its roots closed.
#![tactic(auto)]

ghost use Rattle.std.specs.Prelude.{◌≡◌, List, [], ◌∷◌, map, ℕ, ◌+◌, ◌<◌, ◌≤◌, min, eqb, ltb, get_or};
ghost use Rattle.sets.specs.Lists.{All, ◌&◌, all, empty, concat, below, ◌⧺◌};
ghost use Rattle.sets.specs.Bits.{join, less};
ghost use Rattle.klaim.specs.Fields.{items};
ghost use Rattle.klaim.specs.declared.Slot.TheVariants.{Value};
ghost use Rattle.klaim.specs.Process.{children, used_in, bound_in, tree, ordered, free};
ghost use Rattle.klaim.specs.Reader.{named_once, roots_closed};
ghost use Rattle.tables.specs.Low.{LowLoc, LowSlot};
ghost use Rattle.tables.specs.View.{line_of, lines_of, roots_of, action_line, InForm};
ghost use Rattle.whole.specs.Free.{mask_of};
ghost use Rattle.whole.specs.Children.{list_of};
ghost use Rattle.whole.specs.RootsIn.{RootsIn};
ghost use Rattle.whole.specs.Counted.{Counted};
ghost use Rattle.whole.specs.Reasons.{whole_of};

use klaim::{Fields, Loc, Reason, Slot};
use tables::{Action, LINES, Lines, Roots};

// Whether a child of line q is greater than q and one of the n lines.
fn child_fits(q: usize, n: usize, child: u8) -> bool
    ensures { result ≡ ltb q child & ltb child n }
{
    let child = usize::from(child);
    q < child && child < n
}

// The lines that a line names. A type of its own, since two walks ask for them.
#[derive(Clone, Copy)]
enum Children {
    Zero,
    One(u8),
    Two(u8, u8),
}

#[tactic(auto, unfolding(crate::specs::Children::list_of, klaim::specs::Process::children, tables::specs::View::action_line))]
fn children_of(action: Action) -> Children
    ensures { list_of result ≡ children (action_line action) }
{
    match action {
        Action::Nil => Children::Zero,
        Action::Par { next, second } => Children::Two(next, second),
        Action::Eval { next, body, .. } => Children::Two(next, body),
        Action::Rep { next }
        | Action::Out { next, .. }
        | Action::In { next, .. }
        | Action::Read { next, .. }
        | Action::Accept { next, .. } => Children::One(next),
    }
}

fn children_at(lines: &Lines, q: u8) -> Children
    ensures { list_of result ≡ children (line_of lines.now q) }
{
    children_of(lines.action(q))
}

// Whether each of the children of line q is greater than q and one of the n lines.
fn children_fit(cs: Children, q: usize, n: usize) -> bool
    ensures { result ≡ all (λ c. ltb q c & ltb c n) (list_of cs) }
{
    match cs {
        Children::Zero => true,
        Children::One(a) => child_fits(q, n, a),
        Children::Two(a, b) => child_fits(q, n, a) && child_fits(q, n, b),
    }
}

// Whether each child is greater than its parent and one of the lines.
fn in_order(lines: &Lines) -> bool
    ensures { result ≡ ordered (lines_of lines.now) }
{
    for q in 0..lines.count {
        if !children_fit(children_at(lines, q as u8), q, lines.count) {
            return false;
        }
    }
    true
}

// Whether the lines of the roots are among the n lines.
fn roots_present(roots: &Roots, n: usize) -> bool
    ensures { result ≡ all (λ q. ltb q n) (map (λ x. x.line) (roots_of roots.now)) }
{
    for i in 0..roots.count {
        if n <= usize::from(roots.items[i].line) {
            return false;
        }
    }
    true
}

// One more, at most two.
fn one_more(count: u8) -> u8
    ensures { result ≡ min (count + 1) 2 }
{
    if count < 1 { 1 } else { 2 }
}

// Line q named once more; `counts` has how often each line is named, at most two.
fn named(counts: &mut [u8; LINES], q: u8)
    ensures { (xs : List ℕ) → Counted xs counts.old → Counted (xs ⧺ (q ∷ [])) counts.new }
{
    let at = usize::from(q);
    counts[at] = one_more(counts[at]);
}

// The children of a line named once more.
fn named_children(counts: &mut [u8; LINES], cs: Children)
    ensures { (xs : List ℕ) → Counted xs counts.old → Counted (xs ⧺ list_of cs) counts.new }
{
    match cs {
        Children::Zero => {}
        Children::One(a) => {
            named(counts, a);
        }
        Children::Two(a, b) => {
            named(counts, a);
            named(counts, b);
        }
    }
}

// The children of all lines named once more.
fn named_lines(counts: &mut [u8; LINES], lines: &Lines)
    ensures { (xs : List ℕ) → Counted xs counts.old → Counted (xs ⧺ concat children (lines_of lines.now)) counts.new }
{
    for q in 0..lines.count {
        named_children(counts, children_at(lines, q as u8));
    }
}

// Whether each of the n lines is named once.
fn all_one(counts: &[u8; LINES], n: usize) -> bool
    requires { n ≤ 256 }
    ensures { result ≡ all (λ q. eqb (get_or counts.now q 0) 1) (below n) }
{
    for q in 0..n {
        if counts[q] != 1 {
            return false;
        }
    }
    true
}

// How often each line is named by the roots.
fn named_roots(roots: &Roots) -> [u8; LINES]
    ensures { Counted (map (λ x. x.line) (roots_of roots.now)) result }
{
    let mut counts = [0u8; LINES];
    for i in 0..roots.count {
        named(&mut counts, roots.items[i].line);
    }
    counts
}

// Whether each line is named once, by a parent or by a root.
fn named_once(lines: &Lines, roots: &Roots) -> bool
    ensures { result ≡ named_once (lines_of lines.now) (map (λ x. x.line) (roots_of roots.now)) }
{
    let mut counts = named_roots(roots);
    named_lines(&mut counts, lines);
    all_one(&counts, lines.count)
}

// The variable of a target or a field, as a set.
fn variable(x: Loc) -> u32
    requires { LowLoc x }
    ensures { result ≡ mask_of (used_in (Value x)) }
{
    match x {
        Loc::At(_) | Loc::Here => 0,
        Loc::Use(u) => sets::single(u.0),
    }
}

// Sets of variables: those that fields use, and those that they bind.
#[derive(Clone, Copy)]
struct Variables {
    used: u32,
    bound: u32,
}

// The variables of fields.
fn in_fields(fields: &[Slot]) -> Variables
    requires { All LowSlot fields.now }
    ensures used { result.used ≡ mask_of (concat used_in fields.now) }
    ensures bound { result.bound ≡ mask_of (concat bound_in fields.now) }
{
    let mut sets = Variables { used: 0, bound: 0 };
    for field in fields {
        match *field {
            Slot::Value(x) => sets.used |= variable(x),
            Slot::Bind(u) => sets.bound |= sets::single(u.0),
            Slot::Wildcard => {}
        }
    }
    sets
}

// The free variables of an `out`, `rest` being those of the line that follows.
fn out_vars(target: Loc, fields: Fields<Loc>, rest: u32) -> u32
    requires { LowLoc target × All LowLoc (items fields) }
    ensures { result ≡ join (mask_of (concat used_in (map Value (target ∷ items fields)))) rest }
{
    let slots = fields.map(Slot::Value);
    variable(target) | in_fields(slots.as_slice()).used | rest
}

// The same of `in` and `read`, whose template binds in what follows.
fn get_vars(target: Loc, fields: &Fields<Slot>, rest: u32) -> u32
    requires { LowLoc target × All LowSlot (items fields.now) }
    ensures { result ≡ join (mask_of (concat used_in (Value target ∷ items fields.now))) (less rest (mask_of (concat bound_in (items fields.now)))) }
{
    let own = in_fields(fields.as_slice());
    variable(target) | own.used | (rest ^ (rest & own.bound))
}

// The free variables of the process of line q. Children have greater numbers: 256 less q falls.
fn free_vars(lines: &Lines, q: u8) -> u32
    requires { InForm lines.now q }
    ensures { result ≡ mask_of (free (tree (lines_of lines.now) q)) }
{
    match lines.action(q) {
        Action::Nil => 0,
        Action::Par { next, second } => free_vars(lines, next) | free_vars(lines, second),
        Action::Rep { next } | Action::Accept { next, .. } => free_vars(lines, next),
        Action::Out {
            next,
            target,
            fields,
        } => out_vars(target, fields, free_vars(lines, next)),
        Action::In {
            next,
            target,
            fields,
        }
        | Action::Read {
            next,
            target,
            fields,
        } => get_vars(target, &fields, free_vars(lines, next)),
        Action::Eval {
            next,
            target,
            body,
            ..
        } => variable(target) | (free_vars(lines, body) | free_vars(lines, next)),
    }
}

// Whether the process of line q has no free variable.
fn closed(lines: &Lines, q: u8) -> bool
    requires { InForm lines.now q }
    ensures { result ≡ empty (free (tree (lines_of lines.now) q)) }
{
    free_vars(lines, q) == 0
}

// Whether no root has a free variable. Where each line is named once, each is walked once.
fn roots_closed(lines: &Lines, roots: &Roots) -> bool
    requires { RootsIn lines.now roots.now }
    ensures { result ≡ roots_closed (lines_of lines.now) (map (λ x. x.line) (roots_of roots.now)) }
{
    for i in 0..roots.count {
        if !closed(lines, roots.items[i].line) {
            return false;
        }
    }
    true
}

// Whether the lines are in turn and in order, with the roots among them.
fn in_turn(turn: bool, lines: &Lines, roots: &Roots) -> bool
    ensures { result ≡ turn & ordered (lines_of lines.now) & all (λ q. ltb q lines.now.count) (map (λ x. x.line) (roots_of roots.now)) }
{
    turn && in_order(lines) && roots_present(roots, lines.count)
}

// 5, 6 and 8, over a whole text: its lines in turn and in order with the roots among them, each named once, the roots closed.
pub fn whole(turn: bool, lines: &Lines, roots: &Roots) -> Result<(), Reason>
    ensures { result ≡ whole_of turn (lines_of lines.now) (map (λ x. x.line) (roots_of roots.now)) }
{
    if !in_turn(turn, lines, roots) {
        return Err(Reason::Turn);
    }
    if !named_once(lines, roots) {
        return Err(Reason::Naming);
    }
    if !roots_closed(lines, roots) {
        return Err(Reason::Free);
    }
    Ok(())
}
