//! A net, read from its bytes.
#![tactic(auto)]

ghost use Rattle.std.specs.Prelude.{◌≡◌, List, [], ◌∷◌, ◌++◌, ◌<◌, ◌≤◌, eqb, leb, length};
ghost use Rattle.klaim.specs.Rows as Spec;
ghost use Rattle.klaim.specs.Rows.{group_n, group_q};
ghost use Rattle.klaim.specs.Reader.{a_net, Text, whole_net, read_net};
ghost use Rattle.klaim.specs.Refusals.{answer_of};
ghost use Rattle.forms.specs.Forms.{group_number, row_data};
ghost use Rattle.tables.specs.View.{net_view};
ghost use Rattle.scan.specs.Reasons.{Passed};
ghost use Rattle.nets.specs.Rows.{NetTables, NetHolds, full_of, placed_of};
ghost use Rattle.nets.specs.Defaults.{own_of, with_own, cleared};

mod reading;

use entries::{BLANK_LINE, BLANK_ROOT, BLANK_TUPLE};
use forms::{Group, Row};
use klaim::{Reason, Refusal};
use reading::NetReader;
use repeats::Keys;
use scan::{Reader, Tally};
use sets::EVERY;
use tables::{
    BOX, BOXES, HOMES, LINES, Lines, Net, OWN, Roots, SANDBOXES, THREADS, TUPLES, Tuples,
};
use text::UNSAID;

// Whether a group is that of the first row of a net, and whether it is one of a net's.
fn is_head(group: Group) -> bool
    ensures { result ≡ eqb (group_number group) group_n }
{
    group == Group::N
}

fn is_own(group: Group) -> bool
    ensures { result ≡ leb (group_number group) group_q }
{
    group <= Group::Q
}

impl NetReader {
    // The row put into its table.
    fn keep(&mut self, row: &Row)
        requires { Passed (row_data row.now) (full_of (row_data row.now).group self.old) (placed_of (row_data row.now).group self.old.tally) }
        ensures tally_same { self.new.tally ≡ self.old.tally }
        ensures tables { (above : List Spec.Row) → NetTables above self.old → NetTables (above ++ (row_data row.now ∷ [])) self.new }
    {
        match row {
            Row::R(pair) => stores::put_pair(&mut self.homes, pair),
            Row::D(sandbox) => stores::put_box(&mut self.boxes, sandbox),
            Row::T(tuple) => {
                self.tuples.push(entries::tuple(tuple));
                repeats::keep_key(&mut self.keys, tuple);
            }
            Row::L(root) => self.roots.push(entries::root(root)),
            Row::Q(process) => self.lines.push(entries::line(process)),
            _ => {}
        }
    }

    // The net, or why the text as a whole is refused.
    fn finish(&self) -> Result<Net, Refusal>
        ensures { (rows : List Spec.Row) → NetHolds a_net rows self.now → answer_of net_view result ≡ whole_net rows }
    {
        if self.tally.last.is_none() {
            return Err(Refusal {
                why: Reason::Place,
                row: 1,
            });
        }
        whole::whole(self.tally.turn, &self.lines, &self.roots)?;
        let mut boxes = self.boxes;
        fill_unsaid(&mut boxes);
        Ok(Net {
            size: self.tally.size as u8,
            homes: self.homes,
            boxes,
            tuples: self.tuples,
            roots: self.roots,
            lines: self.lines,
        })
    }
}

impl Reader for NetReader {
    ghost holds = { NetHolds };

    ghost full_at = { full_of };

    ghost placed_at = { λ g r. placed_of g r.tally };

    fn is_full(&self, group: Group) -> bool {
        match group {
            Group::T => TUPLES <= self.tuples.count,
            Group::L => THREADS <= self.roots.count,
            Group::Q => LINES <= self.lines.count,
            _ => false,
        }
    }

    // N stands first, and once.
    fn is_placed(&self, group: Group) -> bool {
        let headed = self.tally.last.is_none() == is_head(group);
        headed & is_own(group) & self.tally.in_order(group)
    }

    fn is_seen(&self, row: &Row) -> bool {
        match row {
            Row::R(pair) => repeats::pair_seen(&self.homes, pair),
            Row::D(sandbox) => repeats::box_seen(&self.boxes, sandbox),
            Row::T(tuple) => repeats::tuple_seen(&self.keys, tuple),
            Row::L(root) => repeats::root_seen(&self.roots, root),
            _ => false,
        }
    }

    fn size(&self) -> u16 {
        self.tally.size
    }

    fn put(&mut self, row: &Row) {
        let lines = self.lines.count;
        self.keep(row);
        self.tally.count(row, lines);
    }
}

// What a sandbox has for `self`: the rights that a row says, or else every right.
#[tactic(auto, unfolding(crate::specs::Defaults::own_of))]
fn own_rights(said: u8) -> u8
    ensures { result ≡ own_of said }
{
    if said < UNSAID { said } else { EVERY }
}

// The rights of each sandbox for `self`.
fn put_own(boxes: &mut [u8; BOXES])
    ensures { boxes.new ≡ with_own boxes.old }
{
    for k in 0..SANDBOXES {
        let at = BOX * k + OWN;
        boxes[at] = own_rights(boxes[at]);
    }
}

// No rights where no row speaks: `UNSAID` becomes 0, what is less stays.
fn clear_unsaid(boxes: &mut [u8; BOXES])
    ensures { boxes.new ≡ cleared boxes.old }
{
    for i in 0..BOXES {
        boxes[i] %= UNSAID;
    }
}

// What sandboxes have where no row speaks, when all rows are read.
fn fill_unsaid(boxes: &mut [u8; BOXES])
    ensures { boxes.new ≡ cleared (with_own boxes.old) }
{
    put_own(boxes);
    clear_unsaid(boxes);
}

// A net from its bytes.
pub fn read_net(s: &[u8]) -> Result<Net, Refusal>
    ensures { answer_of net_view result ≡ read_net s.now }
{
    // Made in its place: given by a function it is copied twice, and reading a short net misses its bar of speed.
    let mut reader = NetReader {
        homes: [0; HOMES],
        boxes: [UNSAID; BOXES],
        tuples: Tuples::empty(BLANK_TUPLE),
        keys: Keys::empty(0),
        roots: Roots::empty(BLANK_ROOT),
        lines: Lines::empty(BLANK_LINE),
        tally: Tally::start(0),
    };
    scan::read(&mut reader, s)?;
    reader.finish()
}
