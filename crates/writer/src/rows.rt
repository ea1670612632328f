// Puts the lines of a table's text into a buffer: the `table` line, the declarations, the steps. Bytes past the end of the buffer are lost; the place
// that a function returns is counted on there, so that a buffer of any length serves to measure the text. Buffer and place are two arguments, as in
// emit: one value with the lent buffer in it would need a clause more in each contract.
ghost use Rattle.std.specs.Prelude.{◌≡◌, ◌+◌, ◌^◌, ◌≤◌, ◌<◌, length};
ghost use Rattle.theory.specs.Table.{declared_set, table};
ghost use Rattle.theory.specs.Valid.{Valid};
ghost use Rattle.text.specs.Roles.{role_of};
ghost use Rattle.text.specs.Writing.{whole_text, name_of};
ghost use Rattle.emit.specs.Buffer.{stored};
ghost use Rattle.emit.specs.Rows.{table_text, signal_text, step_text};
ghost use Rattle.names.specs.LentNames.{texts, Named};
ghost use Rattle.writer.specs.Rows.{signal_lines, cell_text, state_lines, step_lines, Known, Writable};

use text::Role;
use theory::Automaton;

// Puts the `table` line.
#[tactic(auto, using(crate::proofs::Lengths::line_lengths))]
fn table_line(out: &mut [u8], at: usize, name: &[u8], states: usize, initial: usize) -> usize
    requires { at + length (table_text name.now states initial) < 2 ^ 64 }
    ensures value { result ≡ at + length (table_text name.now states initial) }
    ensures out_after { out.new ≡ stored out.old at (table_text name.now states initial) }
{
    let length = name.len() + emit::width(states) + emit::width(initial) + 9;
    emit::table_line(out, at, name, states, initial);
    at + length
}

// Gives the role of a declared signal.
fn role_of(a: Automaton, signal: usize) -> Role
    ensures { result ≡ role_of a signal }
{
    if sets::contains(a.inputs, signal) {
        Role::Input
    } else {
        Role::Output
    }
}

// Puts the declaration of a signal.
#[tactic(auto, using(crate::proofs::Lengths::line_lengths))]
fn signal_line(out: &mut [u8], at: usize, role: Role, name: &[u8]) -> usize
    requires { at + length (signal_text role name.now) < 2 ^ 64 }
    ensures value { result ≡ at + length (signal_text role name.now) }
    ensures out_after { out.new ≡ stored out.old at (signal_text role name.now) }
{
    let length = emit::role_width(role) + name.len() + 2;
    emit::signal_line(out, at, role, name);
    at + length
}

// Puts the declarations of all signals, by ascending number.
fn signal_lines(out: &mut [u8], at: usize, a: Automaton, names: &[&[u8]]) -> usize
    requires named { Named (declared_set a) (texts names.now) }
    requires names_bound { at + length (signal_lines (declared_set a) a (texts names.now)) < 2 ^ 64 }
    ensures value { result ≡ at + length (signal_lines (declared_set a) a (texts names.now)) }
    ensures out_after { out.new ≡ stored out.old at (signal_lines (declared_set a) a (texts names.now)) }
{
    let mut end = at;
    for s in sets::members(table::declared(a)) {
        end = signal_line(out, end, role_of(a, s), names[s]);
    }
    end
}

// Puts the line of a cell, if it holds a step.
#[tactic(auto, using(crate::proofs::Lines::cell_none))]
fn cell_line(
    out: &mut [u8],
    at: usize,
    states: usize,
    from: usize,
    names: &[&[u8]],
    signal: usize,
    cell: u16,
) -> usize
    requires signal_in_bounds { cell < states → signal < length names.now }
    requires cell_bound { at + length (cell_text states from (name_of (texts names.now) signal) cell) < 2 ^ 64 }
    ensures value { result ≡ at + length (cell_text states from (name_of (texts names.now) signal) cell) }
    ensures out_after { out.new ≡ stored out.old at (cell_text states from (name_of (texts names.now) signal) cell) }
{
    let to = cell as usize;
    if states <= to {
        return at;
    }
    step_line(out, at, from, names[signal], to)
}

// Puts the line of a step.
#[tactic(auto, using(crate::proofs::Lengths::line_lengths))]
fn step_line(out: &mut [u8], at: usize, from: usize, name: &[u8], to: usize) -> usize
    requires { at + length (step_text from name.now to) < 2 ^ 64 }
    ensures value { result ≡ at + length (step_text from name.now to) }
    ensures out_after { out.new ≡ stored out.old at (step_text from name.now to) }
{
    let length = name.len() + emit::width(from) + emit::width(to) + 8;
    emit::step_line(out, at, from, name, to);
    at + length
}

// Puts the steps of a state by the signals of a set, by ascending signal. Tables declare few of the 32 signals, so only these are visited.
fn state_lines(
    out: &mut [u8],
    at: usize,
    states: usize,
    cells: &[u16],
    state: usize,
    signals: u32,
    names: &[&[u8]],
) -> usize
    requires writable { Writable states cells.now (texts names.now) }
    requires state_lt_states { state < states }
    requires signals_bound { at + length (state_lines states cells.now (texts names.now) state signals) < 2 ^ 64 }
    ensures value { result ≡ at + length (state_lines states cells.now (texts names.now) state signals) }
    ensures out_after { out.new ≡ stored out.old at (state_lines states cells.now (texts names.now) state signals) }
{
    let first = state * 32;
    let mut end = at;
    for s in sets::members(signals) {
        end = cell_line(out, end, states, state, names, s, cells[first + s]);
    }
    end
}

// Puts all steps, by state of departure and then by signal.
fn step_lines(out: &mut [u8], at: usize, a: Automaton, cells: &[u16], names: &[&[u8]]) -> usize
    requires writable { Writable a.states cells.now (texts names.now) }
    requires known { Known a.states cells.now (declared_set a) }
    requires names_bound { at + length (step_lines a.states cells.now (texts names.now)) < 2 ^ 64 }
    ensures value { result ≡ at + length (step_lines a.states cells.now (texts names.now)) }
    ensures out_after { out.new ≡ stored out.old at (step_lines a.states cells.now (texts names.now)) }
{
    let signals = table::declared(a);
    let mut end = at;
    for s in 0..a.states {
        end = state_lines(out, end, a.states, cells, s, signals, names);
    }
    end
}

// Puts the whole text from the first byte of the buffer on; returns its length.
pub fn text(out: &mut [u8], a: Automaton, cells: &[u16], name: &[u8], names: &[&[u8]]) -> usize
    requires valid { Valid (table a cells.now) }
    requires named { Named (declared_set a) (texts names.now) }
    requires name_len_bound { length name.now ≤ 16 }
    ensures value { result ≡ length (whole_text (table a cells.now) name.now (texts names.now)) }
    ensures out_after { out.new ≡ stored out.old 0 (whole_text (table a cells.now) name.now (texts names.now)) }
{
    let i = table_line(out, 0, name, a.states, a.initial);
    let j = signal_lines(out, i, a, names);
    step_lines(out, j, a, cells, names)
}
