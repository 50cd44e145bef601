//! The engine's state.
#![tactic(auto)]

use klaim::Refusal;
use tables::{Estimate, LINES, Lines, Net, Table, Tuples};
use threads::Threads;

// What a call that was not refused did: brought an arrival with this root line, or withdrew it, made a silent step, or used a right
// on a target.
#[derive(Clone, Copy, PartialEq, Eq)]
pub enum Event {
    Brought(u8),
    Withdrawn(u8),
    Silent,
    Performed { site: u8, target: u8, right: u8 },
}

// An arrival: its root line, and the set of sites at which it is sound (what the door tests without a sandbox).
#[derive(Clone, Copy)]
pub struct Arrival {
    pub root: u8,
    pub sound: u32,
}

// The arrivals.
pub type Arrivals = Table<Arrival, LINES>;

// The net, the estimate, the lines with those of the arrivals behind the net's, the arrivals, the tuples, the threads, and what the
// call behind the state answered.
#[derive(Clone, Copy)]
pub struct State {
    pub net: Net,
    pub estimate: Estimate,
    pub lines: Lines,
    pub arrivals: Arrivals,
    pub tuples: Tuples,
    pub threads: Threads,
    pub told: Result<Event, Refusal>,
}
