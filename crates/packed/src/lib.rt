// The calls of the C archive on tables whose cells are bytes, as a C program holds them: the monitor (document 01: follower), fit and refinement.
#![tactic(auto)]

ghost use Rattle.std.specs.Prelude.{◌≡◌};
ghost use Rattle.table.specs.Contract.{follow_reply};
ghost use Rattle.packed.specs.Bytes.{byte_table};

use theory::{Automaton, Refusal};

mod cells;
mod two_tables;

pub use two_tables::{fit, refine};

// Makes one step of the monitor. It reads the one cell of the state and the signal, so a step takes as long in a large table as in a small one.
pub fn follow(
    a: Automaton,
    bytes: &[u8],
    state: usize,
    signal: usize,
) -> Result<Option<usize>, Refusal>
    ensures { result ≡ follow_reply (byte_table a bytes.now) state signal }
{
    table::check_position(a, cells::count(a.states, bytes.len()), state, signal)?;
    let cell = cells::at(bytes, state * 32 + signal);
    table::advance(cell, a.states, state, signal)
}
