// Refusals: every refusal of a call on tables is made here, and turned into plain numbers for C.
ghost use Rattle.std.specs.Prelude.{◌≡◌, None};
ghost use Rattle.theory.specs.Checks.{refusal as refusal_of, at_cell, cell_of};
ghost use Rattle.table.specs.Statuses.{status_nowhere, numbered_status, status_of, accepted_status};

use crate::Status;
use theory::{Location, Refusal, Rule};

// Makes a refusal with its location. Every refusal of a call on tables is made here.
pub fn at<R>(rule: R, table: u32, location: Option<Location>) -> Refusal<R>
    ensures { result ≡ refusal_of rule table location }
{
    Refusal {
        rule,
        table,
        location,
    }
}

// Makes a refusal that names no cell: by a rule whose number is from 7 on (document 02, S-2), or by a number of the caller's own.
pub fn refusal<R>(rule: R, table: u32) -> Refusal<R>
    ensures { result ≡ refusal_of rule table None }
{
    at(rule, table, None)
}

// Makes a refusal by a rule whose number is from 1 to 6, which names the cell with this index.
pub fn of_cell(rule: Rule, table: u32, cell: usize) -> Refusal
    ensures { result ≡ refusal_of rule table (cell_of cell) }
{
    let location = Location {
        state: cell / 32,
        action: cell % 32,
    };
    at(rule, table, Some(location))
}

// Makes a refusal by a rule whose number is from 1 to 4: they are of no cell in particular, and name state 0 and action 0 (document 02, S-2).
pub fn of_table(rule: Rule, table: u32) -> Refusal
    ensures { result ≡ refusal_of rule table (at_cell 0 0) }
{
    of_cell(rule, table, 0)
}

// Turns a refusal that names no cell into a status.
pub fn status_nowhere(number: u32, table: u32) -> Status
    ensures { result ≡ status_nowhere number table }
{
    Status {
        number,
        table,
        placed: false,
        state: 0,
        action: 0,
    }
}

// Returns the status of a call that is not refused.
pub fn accepted() -> Status
    ensures { result ≡ accepted_status }
{
    status_nowhere(0, 0)
}

impl From<Refusal<u32>> for Status {
    ghost from_gives = { λ r s. s ≡ numbered_status r };

    fn from(why: Refusal<u32>) -> Status {
        match why.location {
            Some(Location { state, action }) => Status {
                number: why.rule,
                table: why.table,
                placed: true,
                state,
                action,
            },
            None => status_nowhere(why.rule, why.table),
        }
    }
}

impl From<Refusal> for Status {
    ghost from_gives = { λ r s. s ≡ status_of r };

    fn from(why: Refusal) -> Status {
        Status::from(at(why.rule.number(), why.table, why.location))
    }
}
