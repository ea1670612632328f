// Checks in document 01's order. One table: 1 to 6. Two tables: 1 to 6 of the first, then of the second, then those that concern both. The lists are
// those of theory/specs/Checks, made of the same parts.
ghost use Rattle.std.specs.Prelude.{◌≡◌, ℕ, ◌*◌, ◌≤◌, ◌&&◌};
ghost use Rattle.theory.specs.Bounded.{any};
ghost use Rattle.theory.specs.Table.{table as table_of, member};
ghost use Rattle.theory.specs.Checks.{first, shape_checks, table_checks, each_table, size_checks, composable_checks, refinement_checks};
ghost use Rattle.table.specs.Cells.{stepless};
ghost use Rattle.table.specs.Room.{wrong_room};

use crate::faults::Finding;
use crate::{Room, faults, headers, refusals};
use theory::{Automaton, Refusal, Rule};

// Tells whether an action is in both sets: then what they have in common has members. Document 01 has the members counted.
fn overlap(s: u32, t: u32) -> bool
    ensures { result ≡ any 32 (λ (a : ℕ). member s a && member t a) }
{
    sets::size(s & t) != 0
}

// Runs checks 1 to 4, which look at no cell; `cells` is the number of cells, and a refusal names the table `table`.
pub fn check_shape(a: Automaton, cells: usize, table: u32) -> Result<(), Refusal>
    ensures { result ≡ first (shape_checks table (stepless a cells)) }
{
    if a.states == 0 || 4096 < a.states {
        return Err(refusals::of_table(Rule::StateCount, table));
    }
    if a.states <= a.initial {
        return Err(refusals::of_table(Rule::InitialState, table));
    }
    if overlap(a.inputs, a.outputs) {
        return Err(refusals::of_table(Rule::CommonAction, table));
    }
    if cells != a.states * 32 {
        return Err(refusals::of_table(Rule::CellCount, table));
    }
    Ok(())
}

// Runs checks 1 to 6; a refusal names the table `table`.
pub fn check(a: Automaton, cells: &[u16], table: u32) -> Result<(), Refusal>
    ensures { result ≡ first (table_checks table (table_of a cells.now)) }
{
    check_shape(a, cells.len(), table)?;
    match faults::find(cells, a.states as u16, headers::declared(a)) {
        Some(Finding { rule, cell }) => Err(refusals::of_cell(rule, table, cell)),
        None => Ok(()),
    }
}

// Runs checks 1 to 6 on the first automaton, then on the second. The sequencer maker calls it to see whether one of these comes before its 8.
pub fn check_each(a: Automaton, ca: &[u16], b: Automaton, cb: &[u16]) -> Result<(), Refusal>
    ensures { result ≡ first (each_table (table_of a ca.now) (table_of b cb.now)) }
{
    check(a, ca, 1)?;
    check(b, cb, 2)
}

// Tells whether a buffer has not exactly the length that so many pairs need.
fn is_wrong(room: Room, pairs: usize) -> bool
    requires { pairs ≤ 4096 }
    ensures { result ≡ wrong_room pairs room }
{
    match room {
        Room::Cells(cells) => cells != pairs * 32,
        Room::Bytes(bytes) => bytes != pairs,
        Room::Both(cells, bytes) => cells != pairs * 32 || bytes != pairs,
    }
}

// Runs 9, then 10, on tables of n and m states. Check 1 of each comes before, so that the product of the two numbers can be taken.
fn check_sizes(n: usize, m: usize, room: Room) -> Result<(), Refusal>
    requires { (n ≤ 4096) × (m ≤ 4096) }
    ensures { result ≡ first (size_checks (n * m) (wrong_room (n * m) room)) }
{
    let pairs = n * m;
    if 4096 < pairs {
        return Err(refusals::refusal(Rule::PairCount, 0));
    }
    if is_wrong(room, pairs) {
        return Err(refusals::refusal(Rule::RoomLength, 0));
    }
    Ok(())
}

// Runs the checks of product, compatibility (document 01: fit) and composition: 1 to 6 on each, 7, 9, 10; `room` has the lengths of the call's
// buffers.
pub fn check_composable(
    a: Automaton,
    ca: &[u16],
    b: Automaton,
    cb: &[u16],
    room: Room,
) -> Result<(), Refusal>
    ensures { result ≡ first (composable_checks (table_of a ca.now) (table_of b cb.now) (wrong_room (a.states * b.states) room)) }
{
    check_each(a, ca, b, cb)?;
    if sets::intersects(a.outputs, b.outputs) {
        return Err(refusals::refusal(Rule::CommonOutput, 0));
    }
    check_sizes(a.states, b.states, room)
}

// Runs the checks of refinement: 1 to 6 on each, 9, 10, but neither 7 nor 8; `marks` is the length of its buffer.
pub fn check_refinement(
    a: Automaton,
    ca: &[u16],
    b: Automaton,
    cb: &[u16],
    marks: usize,
) -> Result<(), Refusal>
    ensures { result ≡ first (refinement_checks (table_of a ca.now) (table_of b cb.now) marks) }
{
    check_each(a, ca, b, cb)?;
    check_sizes(a.states, b.states, Room::Bytes(marks))
}
