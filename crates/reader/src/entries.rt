// Enters a line into a reading: the `table` line, a declaration or a step.
ghost use Rattle.std.specs.Prelude.{◌≡◌, cond, ◌<◌, eqb, length, get_or, set};
ghost use Rattle.text.specs.Reading.{with_role};
ghost use Rattle.text.specs.declared.Spelling.TheVariants.{Exact};
ghost use Rattle.names.specs.Numbering.{entries_of, Fit, first_place, is_of};
ghost use Rattle.reader.specs.State.{is_declared, lacking, Putable, Entry, Sound, Starts, Declares, Steps, Enters, Says};

use crate::state::State;
use lines::Record;
use names::{Name, Names};
use text::{Place, Role, Spelling};
use theory::{Automaton, Rule};

// Starts the automaton that the `table` line says: 1, 2, 10; room is the number of lent cells.
#[tactic(auto, unfolding(text::specs::Reading::started))]
fn start(st: State, states: usize, initial: usize, room: usize) -> Result<State, Rule>
    ensures { Starts st states initial room result }
{
    if states == 0 || 4096 < states {
        return Err(Rule::StateCount);
    }
    if states <= initial {
        return Err(Rule::InitialState);
    }
    if room < states * 32 {
        return Err(Rule::RoomLength);
    }
    Ok(State {
        place: Place::Declarations,
        header: table::header(states, initial, 0, 0),
        signals: st.signals,
    })
}

// Returns the automaton with the signal in the list of its role.
fn with_role(header: Automaton, role: Role, signal: usize) -> Automaton
    requires { signal < 32 }
    ensures { result ≡ with_role role signal header }
{
    match role {
        Role::Input => Automaton {
            inputs: sets::insert(header.inputs, signal),
            ..header
        },
        Role::Output => Automaton {
            outputs: sets::insert(header.outputs, signal),
            ..header
        },
    }
}

// Tells whether the signal is an input or an output of the automaton.
pub fn is_declared(header: Automaton, signal: usize) -> bool
    ensures { result ≡ is_declared header signal }
{
    sets::contains(table::declared(header), signal)
}

// Finds the number of a name, where `alike` is that of the first name that matches it in a spelling: a second search is needed only if letters are folded.
fn number_of<'a>(
    m: &'a [u8],
    p: &'a [u8],
    spelling: Spelling,
    signals: Names,
    name: &[u8],
    alike: usize,
) -> usize
    requires { alike ≡ first_place (is_of m.now p.now spelling name.now) (entries_of signals) }
    ensures { result ≡ first_place (is_of m.now p.now Exact name.now) (entries_of signals) }
{
    match spelling {
        Spelling::Exact => alike,
        Spelling::Folded => names::find(m, p, Spelling::Exact, signals, name),
    }
}

// Declares a signal, whose name has this entry: 18, 28, 21.
fn declare<'a>(
    m: &'a [u8],
    p: &'a [u8],
    spelling: Spelling,
    st: State,
    role: Role,
    name: &[u8],
    entry: Name,
) -> Result<State, Rule>
    requires fit { Fit m.now p.now st.signals }
    requires entry { Entry m.now p.now name.now entry }
    ensures { Declares m.now p.now spelling st role name.now entry result }
{
    let signals = st.signals;
    let header = st.header;
    let alike = names::find(m, p, spelling, signals, name);
    let number = number_of(m, p, spelling, signals, name, alike);
    if is_declared(header, number) {
        return Err(Rule::DeclaredTwice);
    }
    if alike < number {
        return Err(Rule::NameClash);
    }
    if 32 <= number {
        return Err(Rule::NameCount);
    }
    Ok(State {
        place: Place::Declarations,
        header: with_role(header, role, number),
        signals: names::add(signals, entry, number),
    })
}

// Puts a step into its cell, unless one was put there before.
fn put(cells: &mut [u16], at: usize, to: usize) -> bool
    requires { Putable cells.old at to }
    ensures value { result ≡ eqb (get_or cells.old at 65535) 65535 }
    ensures cells_after { cells.new ≡ cond result (set cells.old at to) cells.old }
{
    if cells[at] != 65535 {
        return false;
    }
    cells[at] = to as u16;
    true
}

// Tells whether the automaton lacks a step's signal, its state of departure or its target.
fn lacks(header: Automaton, from: usize, signal: usize, to: usize) -> bool
    ensures { result ≡ lacking header from signal to }
{
    !is_declared(header, signal) || header.states <= from || header.states <= to
}

// Takes a step by the signal with this name: 19, 20. The lent cells, blank at first, tell a step that was given before.
fn step<'a>(
    m: &'a [u8],
    p: &'a [u8],
    st: State,
    cells: &mut [u16],
    from: usize,
    name: &[u8],
    to: usize,
) -> Result<State, Rule>
    requires { Sound m.now p.now st (length cells.old) }
    ensures { Steps m.now p.now st cells.old from name.now to result cells.new }
{
    let signals = st.signals;
    let header = st.header;
    let number = names::find(m, p, Spelling::Exact, signals, name);
    if lacks(header, from, number, to) {
        return Err(Rule::UnknownInStep);
    }
    if !put(cells, from * 32 + number, to) {
        return Err(Rule::StepTwice);
    }
    Ok(State {
        place: Place::Steps,
        header,
        signals,
    })
}

// Enters the record of a line, which begins at the byte `at` of the text with number `text`: returns the state after it, or the rule that it
// breaks, which ends the reading, and writes the cell of a step.
pub fn enter<'a>(
    m: &'a [u8],
    p: &'a [u8],
    text: u8,
    spelling: Spelling,
    st: State,
    cells: &mut [u16],
    at: usize,
    line: &[u8],
    fields: Record,
) -> Result<State, Rule>
    requires sound { Sound m.now p.now st (length cells.old) }
    requires says { Says m.now p.now text at line.now st.place fields }
    ensures { Enters m.now p.now text spelling at line.now st cells.old result cells.new }
{
    match fields {
        Record::Table { states, initial } => start(st, states, initial, cells.len()),
        Record::Declaration(role) => {
            let start = lines::name_start(role);
            let name = lines::after(line, start);
            let entry = names::entry(text, at + start, name);
            declare(m, p, spelling, st, role, name, entry)
        }
        Record::Step {
            from,
            start,
            end,
            to,
        } => {
            let name = lines::before(lines::after(line, start), end - start);
            step(m, p, st, cells, from, name, to)
        }
    }
}
