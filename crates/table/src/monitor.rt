// The monitor (document 01: follower): one step, and the two parts of a step for callers that hold the cells in another form.
ghost use Rattle.std.specs.Prelude.{◌≡◌};
ghost use Rattle.theory.specs.Table.{table};
ghost use Rattle.theory.specs.Checks.{first, place_checks};
ghost use Rattle.table.specs.Cells.{stepless};
ghost use Rattle.table.specs.Contract.{own_reply, follow_reply};

use crate::{checks, headers, refusals};
use theory::{Automaton, Location, Refusal, Rule};

// Runs the checks of the monitor that read no cell: 1 to 4, 11, 12; `cells` is the number of cells.
pub fn check_position(
    a: Automaton,
    cells: usize,
    state: usize,
    action: usize,
) -> Result<(), Refusal>
    ensures { result ≡ first (place_checks 1 (stepless a cells) state action) }
{
    checks::check_shape(a, cells, 1)?;
    if a.states <= state {
        return Err(refusals::refusal(Rule::NoState, 1));
    }
    if !sets::contains(headers::declared(a), action) {
        return Err(refusals::refusal(Rule::NoAction, 1));
    }
    Ok(())
}

// Turns the cell of a state and an action into the reply of the monitor: the state that it moves to, `None` ("not now") for no step, or refusal 5,
// which names this cell.
pub fn advance(
    cell: u16,
    states: usize,
    state: usize,
    action: usize,
) -> Result<Option<usize>, Refusal>
    ensures { result ≡ own_reply states state action cell }
{
    let next = cell as usize;
    if next < states {
        return Ok(Some(next));
    }
    if next == 65535 {
        return Ok(None);
    }
    Err(refusals::at(Rule::StrayCell, 1, Some(Location { state, action })))
}

// Makes one step of the monitor: runs checks 1 to 4, 11 and 12, then 5 on the one cell of the state and the action.
pub fn follow(
    a: Automaton,
    cells: &[u16],
    state: usize,
    action: usize,
) -> Result<Option<usize>, Refusal>
    ensures { result ≡ follow_reply (table a cells.now) state action }
{
    check_position(a, cells.len(), state, action)?;
    advance(cells[state * 32 + action], a.states, state, action)
}
