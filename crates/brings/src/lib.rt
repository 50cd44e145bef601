//! An arrival brought into the engine's state.
#![tactic(auto)]

ghost use Rattle.std.specs.Prelude.{◌≡◌, List, ℕ, ◌<◌, ◌≤◌, eqb};
ghost use Rattle.sets.specs.Lists.{◌&◌, either};
ghost use Rattle.sets.specs.Bits.{mem};
ghost use Rattle.klaim.specs.Process.{tree};
ghost use Rattle.klaim.specs.Reader.{gives, read_arrival};
ghost use Rattle.klaim.specs.WellFormed.{ArrivalRead};
ghost use Rattle.tables.specs.View.{lines_of, net_view, estimate_view, InForm};
ghost use Rattle.rules.specs.Masks.{Sized};
ghost use Rattle.door.specs.Parts.{sound as sound_of};
ghost use Rattle.state.specs.Fits.{Fits, FitsNet};
ghost use Rattle.brings.specs.Brought.{Brought};

use matching::RowIndex;
use state::{Arrival, Event, State};
use tables::{Estimate, Lines, Net};

// The set with site l too, if `here`.
fn with_site(sites: u32, l: u8, here: bool) -> u32
    requires { l < 32 }
    ensures { (s : ℕ) → mem s result ≡ either (mem s sites) (here & eqb l s) }
{
    if here { sites | sets::single(l) } else { sites }
}

// The set of the net's sites at which the arrival whose root is line q is sound.
fn sound_sites(net: &Net, estimate: &Estimate, lines: &Lines, q: u8) -> u32
    requires { InForm lines.now q × Sized estimate.now.stand × (net.now.size ≤ 32) }
    ensures { (l : ℕ) → l < net.now.size → mem l result ≡ sound_of (net_view net.now) (estimate_view estimate.now) l (tree (lines_of lines.now) q) }
{
    let index = RowIndex::of(&estimate.stand);
    let mut sites: u32 = 0;
    for l in 0..net.size {
        let here = door::sound(net, estimate, &index, lines, l, q);
        sites = with_site(sites, l, here);
    }
    sites
}

// The state with an arrival that was read: its lines behind the present ones, its root among the roots.
fn join(state: &mut State, arrival: &Lines)
    requires { Fits state.old × ArrivalRead state.old.net.size state.old.lines.count (lines_of arrival.now) }
    ensures { (rows : List ℕ) → gives (lines_of arrival.now) ≡ read_arrival state.old.net.size state.old.lines.count rows → Brought state.old rows state.new }
{
    let root = state.lines.count as u8;
    renumber::append_moved(&mut state.lines, arrival);
    let sound = sound_sites(&state.net, &state.estimate, &state.lines, root);
    state.arrivals.push(Arrival { root, sound });
    state.told = Ok(Event::Brought(root));
}

// An arrival's rows brought: the answer is the root's line number, or a refusal.
pub fn bring(state: &mut State, rows: &[u8])
    requires { Fits state.old }
    ensures brought { Brought state.old rows.now state.new }
    ensures net { FitsNet state.old → FitsNet state.new }
{
    match arrivals::read_arrival(state.net.size, state.lines.count, rows) {
        Ok(arrival) => join(state, &arrival),
        Err(refusal) => state.told = Err(refusal),
    }
}
