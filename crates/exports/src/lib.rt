//! For the timing in `reference/bench` alone: functions on bytes and numbers that make the public calls. A state does not leave
//! the library: those of the engine begin from the texts, and do their work `count` times. They are proved safe and ending, and
//! promise no more; what is promised of a public call stands at that call.
#![tactic(auto)]

ghost use Rattle.std.specs.Prelude.{◌≤◌, IfOk};
ghost use Rattle.state.specs.Fits.{Fits, FitsNet};

use klaim::Refusal;
use state::State;
use verdict::Verdict;

// What is added to the number of a broken T row, of a broken line, of a refusal; accepted is 0.
const BROKEN_T: u32 = 65536;

const BROKEN_Q: u32 = 131072;

const REFUSED: u32 = 196608;

// What `ready` says of no place.
const NO_PLACE: u32 = 64;

// Bytes of `choices` for one call: three numbers. Every `salmurkki_..` below is called from C by its name.
const CHOICE: usize = 3;

// What check answers as a number.
fn coded(answer: Result<Verdict, Refusal>) -> u32 {
    match answer {
        Ok(Verdict::Accepted) => 0,
        Ok(Verdict::BrokenTuple(i)) => BROKEN_T + u32::from(i),
        Ok(Verdict::BrokenLine(q)) => BROKEN_Q + u32::from(q),
        Err(refusal) => REFUSED + u32::from(refusal.why.number()),
    }
}

// Check: the verdict, and the report written to `report`.
#[unsafe(no_mangle)]
pub extern "C" fn salmurkki_check(net: &[u8], estimate: &[u8], report: &mut [u8]) -> u32 {
    coded(checker::check(net, estimate, report))
}

// How many bytes the output of `salmurkki_list` has.
#[unsafe(no_mangle)]
pub extern "C" fn salmurkki_listing_size() -> usize {
    listing::LISTING
}

// The listing of an input, written to `output`: how many bytes it has.
#[unsafe(no_mangle)]
pub extern "C" fn salmurkki_list(input: &[u8], output: &mut [u8; listing::LISTING]) -> usize {
    listing::list(input, output)
}

// Reads a net and its estimate: the number of the refusal, or 0.
#[unsafe(no_mangle)]
pub extern "C" fn salmurkki_read(net: &[u8], estimate: &[u8]) -> u32 {
    match worlds::read_both(net, estimate) {
        Ok(_) => 0,
        Err(refusal) => u32::from(refusal.why.number()),
    }
}

// Byte i of the choices, 0 beyond them.
fn choice(choices: &[u8], i: usize) -> usize {
    if i < choices.len() {
        return usize::from(choices[i]);
    }
    0
}

// Where the next three numbers begin: behind those at `at`, or at the start again.
fn turned(at: usize, len: usize) -> usize
    ensures { result ≤ len }
{
    if len <= at {
        return 0;
    }
    if len - at < 2 * CHOICE {
        return 0;
    }
    at + CHOICE
}

// The place that is ready, as a number.
fn placed(answer: Option<u8>) -> u32 {
    match answer {
        Some(k) => u32::from(k),
        None => NO_PLACE,
    }
}

// The door's answer as a number: 1 where it passes, 0 where it is closed, or the number of its refusal.
fn opened(answer: Result<bool, Refusal>) -> u32 {
    match answer {
        Ok(passes) => u32::from(passes),
        Err(refusal) => u32::from(refusal.why.number()),
    }
}

// Steps, guarded or bare, each by the next three of the choices: how many of them were performed.
fn steps(state: &mut State, guarded: bool, choices: &[u8], count: usize) -> u32
    requires { FitsNet state.old }
    ensures { FitsNet state.new }
{
    let mut performed: u32 = 0;
    let mut at: usize = 0;
    for _ in 0..count {
        let k = choice(choices, at);
        let m = choice(choices, at + 1);
        let r = choice(choices, at + 2);
        step::step(state, guarded, k, m, r);
        performed = performed.wrapping_add(u32::from(state.told.is_ok()));
        at = turned(at, choices.len());
    }
    performed
}

// One bare step for every three of the choices.
fn prepare(state: &mut State, choices: &[u8])
    requires { FitsNet state.old }
    ensures { FitsNet state.new }
{
    steps(state, false, choices, choices.len() / CHOICE);
}

// Asks what is ready: the sum of the places.
fn ready_times(state: &State, count: usize) -> u32
    requires { Fits state.now }
{
    let mut sum: u32 = 0;
    for _ in 0..count {
        sum = sum.wrapping_add(placed(ready::ready(state)));
    }
    sum
}

// Tries the door, each time by the next three of the choices (root, site, sandbox): the sum of the answers.
fn door_times(state: &State, choices: &[u8], count: usize) -> u32
    requires { Fits state.now }
{
    let mut sum: u32 = 0;
    let mut at: usize = 0;
    for _ in 0..count {
        let r = choice(choices, at);
        let l = choice(choices, at + 1);
        let d = choice(choices, at + 2);
        sum = sum.wrapping_add(opened(ready::door(state, r, l, d)));
        at = turned(at, choices.len());
    }
    sum
}

// Brings an arrival to the same state again and again: the last state.
fn bring_times(state: &State, arrival: &[u8], count: usize) -> State
    requires { FitsNet state.now }
    ensures { FitsNet result }
{
    let mut last = *state;
    for _ in 0..count {
        last = *state;
        brings::bring(&mut last, arrival);
    }
    last
}

// Withdraws the newest arrival from the same state again and again: the last state.
fn withdraw_times(state: &State, count: usize) -> State
    requires { FitsNet state.now }
    ensures { FitsNet result }
{
    let mut last = *state;
    for _ in 0..count {
        last = *state;
        withdraws::withdraw(&mut last);
    }
    last
}

// The state behind a start and a bring; where the bring is refused, or there is no arrival, the state as it was.
fn brought(net: &[u8], estimate: &[u8], arrival: &[u8]) -> Result<State, Refusal>
    ensures { IfOk result FitsNet }
{
    let mut state = starts::start(net, estimate)?;
    brings::bring(&mut state, arrival);
    Ok(state)
}

// Steps behind a start and a bring.
fn steps_behind(
    net: &[u8],
    estimate: &[u8],
    guarded: bool,
    arrival: &[u8],
    choices: &[u8],
    count: usize,
) -> u32 {
    match brought(net, estimate, arrival) {
        Ok(mut state) => steps(&mut state, guarded, choices, count),
        Err(_) => REFUSED,
    }
}

// Starts, brings the arrival and makes bare steps.
#[unsafe(no_mangle)]
pub extern "C" fn salmurkki_steps(
    net: &[u8],
    estimate: &[u8],
    arrival: &[u8],
    choices: &[u8],
    count: usize,
) -> u32 {
    steps_behind(net, estimate, false, arrival, choices, count)
}

// Starts, brings the arrival and makes guarded steps.
#[unsafe(no_mangle)]
pub extern "C" fn salmurkki_guarded_steps(
    net: &[u8],
    estimate: &[u8],
    arrival: &[u8],
    choices: &[u8],
    count: usize,
) -> u32 {
    steps_behind(net, estimate, true, arrival, choices, count)
}

// Starts, brings the arrival and tries the door.
#[unsafe(no_mangle)]
pub extern "C" fn salmurkki_door(
    net: &[u8],
    estimate: &[u8],
    arrival: &[u8],
    choices: &[u8],
    count: usize,
) -> u32 {
    match brought(net, estimate, arrival) {
        Ok(state) => door_times(&state, choices, count),
        Err(_) => REFUSED,
    }
}

// What is ready behind a step for every three of the choices.
fn ready_behind(mut state: State, choices: &[u8], count: usize) -> u32
    requires { FitsNet state }
{
    prepare(&mut state, choices);
    ready_times(&state, count)
}

// Starts, brings the arrival, makes a bare step for every three of the choices, and asks what is ready.
#[unsafe(no_mangle)]
pub extern "C" fn salmurkki_ready(
    net: &[u8],
    estimate: &[u8],
    arrival: &[u8],
    choices: &[u8],
    count: usize,
) -> u32 {
    match brought(net, estimate, arrival) {
        Ok(state) => ready_behind(state, choices, count),
        Err(_) => REFUSED,
    }
}

// An arrival brought to the same state again and again, and what is then ready.
fn bring_behind(state: State, arrival: &[u8], count: usize) -> u32
    requires { FitsNet state }
{
    let last = bring_times(&state, arrival, count);
    placed(ready::ready(&last))
}

// Starts and brings the arrival to the same state again and again; then what is ready.
#[unsafe(no_mangle)]
pub extern "C" fn salmurkki_bring(
    net: &[u8],
    estimate: &[u8],
    arrival: &[u8],
    count: usize,
) -> u32 {
    match starts::start(net, estimate) {
        Ok(state) => bring_behind(state, arrival, count),
        Err(_) => REFUSED,
    }
}

// How many lines a state has, and what is ready in it, as one number.
fn counted(state: &State) -> u32
    requires { Fits state.now }
{
    let lines = state.lines.count as u32;
    (lines * (NO_PLACE + 1)).wrapping_add(placed(ready::ready(state)))
}

// The newest arrival withdrawn behind a step for every three of the choices.
fn withdraw_behind(mut state: State, choices: &[u8], count: usize) -> u32
    requires { FitsNet state }
{
    prepare(&mut state, choices);
    let last = withdraw_times(&state, count);
    counted(&last)
}

// Starts, brings the arrival, makes a bare step for every three of the choices, and withdraws the newest arrival from the state behind
// them again and again; then how many lines there are, and what is ready.
#[unsafe(no_mangle)]
pub extern "C" fn salmurkki_withdraw(
    net: &[u8],
    estimate: &[u8],
    arrival: &[u8],
    choices: &[u8],
    count: usize,
) -> u32 {
    match brought(net, estimate, arrival) {
        Ok(state) => withdraw_behind(state, choices, count),
        Err(_) => REFUSED,
    }
}

// Starts again and again: the last answer.
fn start_times(net: &[u8], estimate: &[u8], count: usize) -> Result<State, Refusal>
    ensures { IfOk result FitsNet }
{
    let mut last = starts::start(net, estimate);
    for _ in 1..count {
        last = starts::start(net, estimate);
    }
    last
}

// Starts, at least once; then what is ready.
#[unsafe(no_mangle)]
pub extern "C" fn salmurkki_start(net: &[u8], estimate: &[u8], count: usize) -> u32 {
    match start_times(net, estimate, count) {
        Ok(state) => placed(ready::ready(&state)),
        Err(_) => REFUSED,
    }
}
