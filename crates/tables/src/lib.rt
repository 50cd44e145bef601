//! A net and an estimate: tables of process lines, tuples and roots, and of rights.
#![tactic(auto)]

ghost use Rattle.std.specs.Prelude.{◌≡◌, ◌+◌, ◌<◌, ◌≤◌, length};
ghost use Rattle.klaim.specs.Net.{home, box, box_self, may, holds};
ghost use Rattle.klaim.specs.Process.{line_at};
ghost use Rattle.klaim.specs.State.{is_nil};
ghost use Rattle.klaim.specs.Fields.{items};
ghost use Rattle.tables.specs.View.{ActionAt, lines_of, tuple_view, net_view, estimate_view};

mod line;
mod table;

use klaim::{Fields, Loc, Slot};
pub use line::Line;
pub use table::Table;

// The limits of document 01.
pub const SITES: usize = 32;

pub const VARIABLES: usize = 32;

pub const SANDBOXES: usize = 32;

pub const LINES: usize = 256;

pub const TUPLES: usize = 256;

pub const THREADS: usize = 64;

// Bytes of a report, and of all home policies: one for each pair of sites.
pub const REPORT: usize = 1024;

pub const HOMES: usize = SITES * SITES;

// Bytes of a sandbox: one for each site, then one for `self`; and of all sandboxes.
pub const BOX: usize = 33;

pub const OWN: usize = 32;

pub const BOXES: usize = SANDBOXES * BOX;

// Process lines, tuples, roots.
pub type Lines = Table<Line, LINES>;

pub type Tuples = Table<Tuple, TUPLES>;

pub type Roots = Table<Root, THREADS>;

// What a process line does; `next` is the line that follows, `second` the second branch, `body` the line that is sent.
#[derive(Clone, Copy)]
pub enum Action {
    Nil,
    Par {
        next: u8,
        second: u8,
    },
    Rep {
        next: u8,
    },
    Out {
        next: u8,
        target: Loc,
        fields: Fields<Loc>,
    },
    In {
        next: u8,
        target: Loc,
        fields: Fields<Slot>,
    },
    Read {
        next: u8,
        target: Loc,
        fields: Fields<Slot>,
    },
    Eval {
        next: u8,
        target: Loc,
        body: u8,
        sandbox: u8,
    },
    Accept {
        next: u8,
        sandbox: u8,
    },
}

// A tuple: its site, and its fields, which are sites.
#[derive(Clone, Copy)]
pub struct Tuple {
    pub site: u8,
    pub fields: Fields<u8>,
}

// A root: its site and its line.
#[derive(Clone, Copy)]
pub struct Root {
    pub site: u8,
    pub line: u8,
}

// A net as read. A policy byte stands at 32 * s + t, a sandbox's at 33 * k + t (`self` is t = 32).
#[derive(Clone, Copy)]
pub struct Net {
    pub size: u8,
    pub homes: [u8; HOMES],
    pub boxes: [u8; BOXES],
    pub tuples: Tuples,
    pub roots: Roots,
    pub lines: Lines,
}

// An estimate as read: a set of sites for each variable, tuples, policy bytes.
#[derive(Clone, Copy)]
pub struct Estimate {
    pub binds: [u32; VARIABLES],
    pub stand: Tuples,
    pub hold: [u8; HOMES],
}

impl Net {
    // The home policy of site s towards t.
    #[tactic(auto, unfolding(klaim::specs::Net::home))]
    pub fn home(&self, s: u8, t: u8) -> u8
        requires { (s < 32) × (t < 32) }
        ensures { result ≡ home (net_view self.now) s t }
    {
        self.homes[SITES * usize::from(s) + usize::from(t)]
    }

    // Sandbox k towards t.
    pub fn sandbox(&self, k: u8, t: u8) -> u8
        requires { (k < 32) × (t < 32) }
        ensures { result ≡ box (net_view self.now) k t }
    {
        self.boxes[BOX * usize::from(k) + usize::from(t)]
    }

    // Sandbox k towards `self`.
    #[tactic(auto, unfolding(klaim::specs::Net::box_self))]
    pub fn sandbox_self(&self, k: u8) -> u8
        requires { k < 32 }
        ensures { result ≡ box_self (net_view self.now) k }
    {
        self.boxes[BOX * usize::from(k) + OWN]
    }
}

impl Estimate {
    // The sites that variable u may become.
    #[tactic(auto, unfolding(klaim::specs::Net::may))]
    pub fn may(&self, u: u8) -> u32
        requires { u < 32 }
        ensures { result ≡ may (estimate_view self.now) u }
    {
        self.binds[usize::from(u)]
    }

    // The rights towards t that sandboxes at s may hold.
    #[tactic(auto, unfolding(klaim::specs::Net::holds))]
    pub fn holds(&self, s: u8, t: u8) -> u8
        requires { (s < 32) × (t < 32) }
        ensures { result ≡ holds (estimate_view self.now) s t }
    {
        self.hold[SITES * usize::from(s) + usize::from(t)]
    }
}

impl Tuple {
    // How many sites it has.
    pub fn len(&self) -> usize
        ensures value { result ≡ length (tuple_view self.now) }
        ensures most { result ≤ 5 }
    {
        self.fields.as_slice().len() + 1
    }
}

impl Table<Line, LINES> {
    // What line q does; past the end, what no line does.
    pub fn action(&self, q: u8) -> Action
        ensures { ActionAt self.now q result }
    {
        self.items[usize::from(q)].action
    }

    // Whether line q is `nil`, or is none of them.
    pub fn is_nil(&self, q: u8) -> bool
        ensures { result ≡ is_nil (line_at (lines_of self.now) q) }
    {
        if self.count <= usize::from(q) {
            return true;
        }
        matches!(self.action(q), Action::Nil)
    }
}
