//! An arrival's lines moved behind the present ones.
#![tactic(auto)]

ghost use Rattle.std.specs.Prelude.{◌≡◌, true, ◌++◌, map, ℕ, ◌+◌, ◌≤◌, ◌<◌};
ghost use Rattle.sets.specs.Lists.{Elem};
ghost use Rattle.klaim.specs.Process.{children, move, ordered};
ghost use Rattle.tables.specs.View.{action_line, lines_of};

use tables::{Action, Line, Lines};

// The number of a child, n lines further on.
fn shifted(child: u8, n: usize) -> u8
    requires { n + child < 256 }
    ensures { result ≡ n + child }
{
    (n + usize::from(child)) as u8
}

// A line whose children stand n lines further on.
fn moved(line: Line, n: usize) -> Line
    requires { (c : ℕ) → Elem c (children (action_line line.action)) → n + c < 256 }
    ensures { action_line result.action ≡ move n (action_line line.action) }
{
    let mut action = line.action;
    match &mut action {
        Action::Nil => {}
        Action::Par { next, second } => {
            *next = shifted(*next, n);
            *second = shifted(*second, n);
        }
        Action::Eval { next, body, .. } => {
            *next = shifted(*next, n);
            *body = shifted(*body, n);
        }
        Action::Rep { next } => *next = shifted(*next, n),
        Action::Out { next, .. } => *next = shifted(*next, n),
        Action::In { next, .. } => *next = shifted(*next, n),
        Action::Read { next, .. } => *next = shifted(*next, n),
        Action::Accept { next, .. } => *next = shifted(*next, n),
    }
    Line { action }
}

// The lines of an arrival, put behind those that stand there.
pub fn append_moved(lines: &mut Lines, arrival: &Lines)
    requires few { lines.old.count + arrival.now.count ≤ 256 }
    requires in_order { ordered (lines_of arrival.now) ≡ true }
    ensures list { lines_of lines.new ≡ lines_of lines.old ++ map (move lines.old.count) (lines_of arrival.now) }
    ensures count { lines.new.count ≡ lines.old.count + arrival.now.count }
{
    let n = lines.count;
    for q in 0..arrival.count {
        lines.push(moved(arrival.items[q], n));
    }
}
