//! An arrival, read from its bytes: the Q rows that a bring takes.
#![tactic(auto)]

ghost use Rattle.std.specs.Prelude.{◌≡◌, List, [], ◌∷◌, ◌++◌, ℕ, ◌≤◌, eqb};
ghost use Rattle.klaim.specs.Rows as Spec;
ghost use Rattle.klaim.specs.Rows.{group_q};
ghost use Rattle.klaim.specs.Reader.{Text, an_arrival, whole, numbers_of, lines_of as lines_in, read_arrival};
ghost use Rattle.klaim.specs.Refusals.{answer_of};
ghost use Rattle.forms.specs.Forms.{group_number, row_data};
ghost use Rattle.scan.specs.Reasons.{Passed};
ghost use Rattle.scan.specs.Tallies.{counted_of};
ghost use Rattle.arrivals.specs.Rows.{ArrivalTally, ArrivalHolds, full_of};
ghost use Rattle.tables.specs.View.{lines_of};

mod reading;

use entries::{BLANK_LINE, BLANK_ROOT};
use forms::{Group, Row};
use klaim::Refusal;
use reading::ArrivalReader;
use scan::{Reader, Tally};
use tables::{LINES, Lines, Root, Roots};

// Whether a group is that of an arrival's rows.
fn is_own(group: Group) -> bool
    ensures { result ≡ eqb (group_number group) group_q }
{
    group == Group::Q
}

impl ArrivalReader {
    // Nothing is read; among n sites, behind the lines that are present.
    fn new(n: u8, present: usize) -> ArrivalReader
        requires { present ≤ 256 }
        ensures { ArrivalHolds (an_arrival n present) [] result }
    {
        ArrivalReader {
            lines: Lines::empty(BLANK_LINE),
            tally: Tally::start(n),
            present,
        }
    }

    // The line of a Q row put into the table.
    fn keep(&mut self, row: &Row)
        requires { Passed (row_data row.now) (full_of (row_data row.now).group self.old) (eqb (row_data row.now).group group_q) }
        ensures same { (self.new.tally ≡ self.old.tally) × (self.new.present ≡ self.old.present) }
        ensures counts { (n : ℕ) (above : List Spec.Row) → ArrivalTally n self.old.present above self.old.tally self.old.lines → ArrivalTally n self.new.present (above ++ (row_data row.now ∷ [])) (counted_of row.now self.old.lines.count self.old.tally) self.new.lines }
    {
        if let Row::Q(process) = row {
            self.lines.push(entries::line(process));
        }
    }

    // The lines of the arrival, or why the text as a whole is refused. Line 0 is the root.
    fn finish(&self) -> Result<Lines, Refusal>
        ensures { (t : Text) (rows : List Spec.Row) → ArrivalHolds t rows self.now → answer_of lines_of result ≡ whole (numbers_of rows) (lines_in rows) (0 ∷ []) (lines_in rows) }
    {
        let mut root = Roots::empty(BLANK_ROOT);
        root.push(Root { site: 0, line: 0 });
        whole::whole(self.tally.turn, &self.lines, &root)?;
        Ok(self.lines)
    }
}

impl Reader for ArrivalReader {
    ghost holds = { ArrivalHolds };

    ghost full_at = { full_of };

    ghost placed_at = { λ g r. eqb g group_q };

    fn is_full(&self, group: Group) -> bool {
        // `&` has no branch, so that the proof has one path.
        is_own(group) & (LINES <= self.present + self.lines.count)
    }

    fn is_placed(&self, group: Group) -> bool {
        is_own(group)
    }

    // Q rows never repeat.
    fn is_seen(&self, _row: &Row) -> bool {
        false
    }

    fn size(&self) -> u16 {
        self.tally.size
    }

    fn put(&mut self, row: &Row) {
        let lines = self.lines.count;
        self.keep(row);
        self.tally.count(row, lines);
    }
}

// An arrival from its bytes, among n sites and behind d lines. From 256 lines on there is no room.
pub fn read_arrival(n: u8, d: usize, s: &[u8]) -> Result<Lines, Refusal>
    ensures { answer_of lines_of result ≡ read_arrival n d s.now }
{
    let mut reader = ArrivalReader::new(n, d.min(LINES));
    scan::read(&mut reader, s)?;
    reader.finish()
}
