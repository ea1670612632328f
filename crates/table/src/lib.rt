// All that looks at the cells of one interface automaton (document 01: table), or at the headers of two: judge, mirror, the monitor, the checks
// that every call begins with, refusals, and counts of what calls leave in buffers.
#![tactic(auto)]

ghost use Rattle.std.specs.Prelude.{◌≡◌, length, replicate, if◌then◌else◌};
ghost use Rattle.theory.specs.Table.{table};
ghost use Rattle.theory.specs.Checks.{first, table_checks};
ghost use Rattle.table.specs.Contract.{mirror_reply};

use theory::{Automaton, Refusal};

mod checks;
mod counts;
mod faults;
mod headers;
mod monitor;
mod refusals;
mod sizes;

pub use checks::{check_composable, check_each, check_refinement};
pub use counts::{count_kept, count_singly, count_steps};
pub use headers::{declared, exchange, header, sent};
pub use monitor::{advance, check_position, follow};
pub use refusals::{accepted, refusal, status_nowhere};
pub use sizes::is_ready;

// Lengths of the result buffers of a call on two tables: cells, 32 for each state pair; bytes, one for each; or both.
#[derive(Clone, Copy)]
pub enum Room {
    Cells(usize),
    Bytes(usize),
    Both(usize, usize),
}

// A refusal in plain numbers, for C: its number, the table at fault, whether it names a cell, and the state and action of that cell. All fields are
// 0 (false) if nothing is refused; state and action are 0 if no cell is named.
#[derive(Clone, Copy)]
pub struct Status {
    pub number: u32,
    pub table: u32,
    pub placed: bool,
    pub state: usize,
    pub action: usize,
}

// Judges one automaton by checks 1 to 6; a refusal names table 1.
pub fn judge(a: Automaton, cells: &[u16]) -> Result<(), Refusal>
    ensures { result ≡ first (table_checks 1 (table a cells.now)) }
{
    checks::check(a, cells, 1)
}

// Mirrors an automaton: exchanges inputs and outputs if checks 1 to 6 pass. The mirror has the cells of the automaton.
pub fn mirror(a: Automaton, cells: &[u16]) -> Result<Automaton, Refusal>
    ensures { result ≡ mirror_reply (table a cells.now) }
{
    judge(a, cells)?;
    Ok(headers::exchange(a))
}

// Removes every step: sets all cells to 65,535.
pub fn clear(cells: &mut [u16])
    ensures { cells.new ≡ replicate (length cells.old) 65535 }
{
    cells.fill(65535);
}

// Removes every step if what the cells were for is refused; else leaves them as they are.
pub fn clear_if(refused: bool, cells: &mut [u16])
    ensures { cells.new ≡ (if refused then replicate (length cells.old) 65535 else cells.old) }
{
    if refused {
        clear(cells);
    }
}
