// Calls on one table: judge, mirror, the monitor (document 01: follower), counts, and what is reached.
ghost use Rattle.std.specs.Prelude.{◌≡◌};
ghost use Rattle.theory.specs.Table.{kept_count};
ghost use Rattle.theory.specs.Checks.{first, table_checks};
ghost use Rattle.table.specs.Contract.{mirror_reply, follow_reply};
ghost use Rattle.reach.specs.Marks.{reached_marks};
ghost use Rattle.reach.specs.Ends.{ends_in};
ghost use Rattle.table.specs.StepCounts.{steps_in};
ghost use Rattle.harness.specs.Contract.{judged, made, followed};
ghost use Rattle.harness.specs.Tables.{table_of};

use crate::replies;
use crate::replies::Reply;

// Judges a table.
#[unsafe(no_mangle)]
pub extern "C" fn harness_judge(
    states: usize,
    initial: usize,
    inputs: u32,
    outputs: u32,
    cells: &[u16],
) -> Reply
    ensures { result ≡ judged (first (table_checks 1 (table_of states initial inputs outputs cells.now))) }
{
    let a = table::header(states, initial, inputs, outputs);
    Reply::from(table::judge(a, cells))
}

// Mirrors a table: gives the header of the mirror, whose cells are those of the table.
#[unsafe(no_mangle)]
pub extern "C" fn harness_mirror(
    states: usize,
    initial: usize,
    inputs: u32,
    outputs: u32,
    cells: &[u16],
) -> Reply
    ensures { result ≡ made (mirror_reply (table_of states initial inputs outputs cells.now)) }
{
    let a = table::header(states, initial, inputs, outputs);
    Reply::from(table::mirror(a, cells))
}

// Makes one step of the monitor from a state by a signal.
#[unsafe(no_mangle)]
pub extern "C" fn harness_follow(
    states: usize,
    initial: usize,
    inputs: u32,
    outputs: u32,
    cells: &[u16],
    state: usize,
    signal: usize,
) -> Reply
    ensures { result ≡ followed state (follow_reply (table_of states initial inputs outputs cells.now) state signal) }
{
    let a = table::header(states, initial, inputs, outputs);
    replies::followed(state, table::follow(a, cells, state, signal))
}

// Counts the bytes that are 1.
#[unsafe(no_mangle)]
pub extern "C" fn harness_count_kept(flags: &[u8]) -> usize
    ensures { result ≡ kept_count flags.now }
{
    table::count_kept(flags)
}

// Counts the bytes that are 1, one by one, for the benchmark to compare with.
#[unsafe(no_mangle)]
pub extern "C" fn harness_count_singly(flags: &[u8]) -> usize
    ensures { result ≡ kept_count flags.now }
{
    table::count_singly(flags)
}

// Counts the cells that hold a step.
#[unsafe(no_mangle)]
pub extern "C" fn harness_count_steps(states: usize, cells: &[u16]) -> usize
    ensures { result ≡ steps_in states cells.now }
{
    table::count_steps(states, cells)
}

// Counts the ends of a composition, whose table and flags these are.
#[unsafe(no_mangle)]
pub extern "C" fn harness_count_ends(
    states: usize,
    initial: usize,
    inputs: u32,
    outputs: u32,
    cells: &[u16],
    flags: &[u8],
) -> usize
    ensures { result ≡ ends_in (table_of states initial inputs outputs cells.now) flags.now }
{
    let a = table::header(states, initial, inputs, outputs);
    reach::count_ends(a, cells, flags)
}

// Marks the states that are reached from the first one by the actions of each state's set.
#[unsafe(no_mangle)]
pub extern "C" fn harness_mark_reached(
    marks: &mut [u8],
    initial: usize,
    sets: &[u32],
    cells: &[u16],
)
    ensures { marks.new ≡ reached_marks initial sets.now cells.now marks.old }
{
    reach::mark_reached(marks, initial, sets, cells)
}
