// Runs checks 5 and 6 (document 01, "A table") over all cells, row by row: finds the first cell at fault by check 5, or else the first by check 6.
ghost use Rattle.std.specs.Prelude.{◌≡◌, ◌/◌, ◌<◌, min, length};
ghost use Rattle.theory.specs.Bounded.{any, tabulate};
ghost use Rattle.theory.specs.Checks.{stray as strayOf};
ghost use Rattle.table.specs.Faults.{fault as faultOf, limit as limitOf, stray_in, SoundBefore, Ended, rule_of, first_fault};

use theory::Rule;

// What `find` finds: the rule that is broken, that of check 5 or 6, and the index of the first cell at fault by it.
#[derive(Clone, Copy)]
pub struct Finding {
    pub rule: Rule,
    pub cell: usize,
}

// Where a walk ends: `at` is the index of the first cell at fault, or the number of cells. No cell before `row` is at fault by either check: it is the first
// row that was not passed over, or the number of rows, and the next walk begins there. `at` is no `Option`: with one, and a call of `walk` for each check in
// place of the loop over the two, judging 64 states takes 197 ns for 172, and 4 states 40 ns for 33.
#[derive(Clone, Copy)]
struct Walked {
    at: usize,
    row: usize,
}

// Tells whether the cell is neither 65,535 nor below the limit: 65,535 and 1 wrap to 0, and one comparison says both.
fn stray(cell: u16, limit: u16) -> bool
    ensures { result ≡ strayOf limit cell }
{
    limit < cell.wrapping_add(1)
}

// Tells whether a cell is at fault: by check 5, or by check 6 if `six`. `acts` has the declared actions. Check 5 does not call `stray`: sharing a sum with
// the row test, it would cost every row an instruction more.
fn fault(six: bool, cell: u16, states: u16, acts: u32, action: usize) -> bool
    ensures { result ≡ faultOf six states acts cell action }
{
    if six {
        cell < states && !sets::contains(acts, action)
    } else {
        cell != 65535 && states <= cell
    }
}

// Exclusive upper bound of a step by the action: the number of states, or 0 where the action is not declared.
fn limit(states: u16, acts: u32, action: usize) -> u16
    ensures { result ≡ limitOf states acts action }
{
    if sets::contains(acts, action) {
        states
    } else {
        0
    }
}

// The limits of all actions.
fn limits(states: u16, acts: u32) -> [u16; 32]
    ensures { result ≡ tabulate (limitOf states acts) 0 32 }
{
    let mut below = [0u16; 32];
    for action in 0..32usize {
        below[action] = limit(states, acts, action);
    }
    below
}

// Tells whether a cell of the row is at fault by either check. No test leaves the row, so that the compiler compares many cells at once.
fn is_row_faulty(cells: &[u16], row: usize, below: &[u16]) -> bool
    requires row_in_bounds { row < length cells.now / 32 }
    requires below_len { length below.now ≡ 32 }
    ensures { result ≡ any 32 (stray_in below.now cells.now row) }
{
    let mut faulty = false;
    for action in 0..32usize {
        faulty = faulty | stray(cells[row * 32 + action], below[action]);
    }
    faulty
}

// Walks the whole rows of 32 cells to the first cell at fault. It begins at a row before which none is, passes over a row that is sound as a whole by one
// test, and looks at the cells of any other row one by one.
fn walk(six: bool, cells: &[u16], states: u16, acts: u32, below: &[u16], start: usize) -> Walked
    requires sound_before { SoundBefore states acts cells.now start }
    requires below_value { below.now ≡ tabulate (limitOf states acts) 0 32 }
    ensures { Ended six states acts cells.now result }
{
    let count = cells.len() / 32;
    let mut at = count * 32;
    let mut noted = count;
    'rows: for row in start..count {
        if !is_row_faulty(cells, row, below) {
            continue;
        }
        noted = noted.min(row);
        for action in 0..32usize {
            let k = row * 32 + action;
            if fault(six, cells[k], states, acts, action) {
                at = k;
                break 'rows;
            }
        }
    }
    Walked { at, row: noted }
}

// The rule of check 6 if `six`, else that of check 5.
fn rule_of(six: bool) -> Rule
    ensures { result ≡ rule_of six }
{
    if six {
        Rule::UndeclaredStep
    } else {
        Rule::StrayCell
    }
}

// Finds the first cell at fault by check 5, or else the first by check 6, among whole rows of 32 cells; `acts` has the declared actions. A
// sound table takes one pass: the walk for check 5 notes the first row at fault by either check, and check 6 begins there.
pub fn find(cells: &[u16], states: u16, acts: u32) -> Option<Finding>
    ensures { result ≡ first_fault states acts cells.now }
{
    let below = limits(states, acts);
    let rows = cells.len() / 32;
    let mut start = 0;
    for check in 5..7u32 {
        let walked = walk(check == 6, cells, states, acts, &below, start);
        if walked.at < rows * 32 {
            return Some(Finding {
                rule: rule_of(check == 6),
                cell: walked.at,
            });
        }
        start = walked.row;
    }
    None
}
