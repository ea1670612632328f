// Tests the limits: prints which sizes and numbers the calls accept and which they refuse, by document 01's numbers. The output is compared with
// the file stdout.
#![tactic(auto)]

ghost use Rattle.std.specs.Prelude.{◌≤◌};
ghost use Rattle.limits.specs.Room.{Room};

use text::Spelling;
use theory::{Automaton, Rule};

// Prints a line for a call: that it was accepted, or the number of its refusal. Leaves a failed write unsaid: what is missing of the output shows when it
// is compared.
fn report(rt: &impl Print, call: &str, outcome: Result<(), Rule>) {
    let _ = match outcome {
        Ok(()) => println!(rt; "{call}: accepted"),
        Err(rule) => println!(rt; "{call}: refused {}", rule.number()),
    };
}

// An automaton that accepts signal 31 and sends signal 0.
fn of_states(states: usize) -> Automaton {
    table::header(states, 0, 2147483648, 1)
}

// Its counterpart, which sends signal 31 and accepts signal 0.
fn counterpart(states: usize) -> Automaton {
    table::header(states, 0, 1, 2147483648)
}

// An automaton without steps, of so many cells.
fn judge(rt: &impl Print, call: &str, states: usize, cells: usize)
    requires { cells ≤ 131104 }
{
    let blank = [65535u16; 131104];
    let judged = table::judge(of_states(states), &blank[0..cells]);
    report(rt, call, judged.map_err(|r| r.rule));
}

// Two automata without steps, of n and m states with the right number of cells, and so many flags.
fn fit(rt: &impl Print, call: &str, n: usize, m: usize, bytes: usize)
    requires { Room n m bytes }
{
    let one = [65535u16; 131072];
    let two = [65535u16; 131072];
    let mut flags = [7u8; 133120];
    let decided = compatibility::compatible(
        of_states(n),
        &one[0..n * 32],
        counterpart(m),
        &two[0..m * 32],
        &mut flags[0..bytes],
    );
    report(rt, call, decided.map(|_| ()).map_err(|r| r.rule));
}

// Follows a signal from state 0, at which signal 31 leads to state 1.
fn follow(rt: &impl Print, call: &str, signal: usize) {
    let mut cells = [65535u16; 64];
    cells[31] = 1;
    match table::follow(of_states(2), &cells, 0, signal) {
        Ok(Some(to)) => {
            let _ = println!(rt; "{call}: moved to {to}");
        }
        Ok(None) => {
            let _ = println!(rt; "{call}: not now");
        }
        Err(r) => report(rt, call, Err(r.rule)),
    }
}

// Reads the first bytes of a text that declares 33 signals.
fn read(rt: &impl Print, call: &str, bytes: usize) {
    let text =
        b"table\tt\t1\t0\nin\ta\nin\tb\nin\tc\nin\td\nin\te\nin\tf\nin\tg\nin\th\nin\ti\nin\tj\nin\tk\nin\tl\nin\tm\nin\tn\nin\to\nin\tp\nin\tq\nin\tr\nin\ts\nin\tt\nin\tu\nin\tv\nin\tw\nin\tx\nin\ty\nin\tz\nin\t0\nin\t1\nin\t2\nin\t3\nin\t4\nin\t5\nin\t6\n";
    let mut cells = [7u16; 32];
    let table = reader::read_alone(lines::before(text, bytes), Spelling::Folded, &mut cells);
    report(rt, call, table.map(|_| ()).map_err(|r| r.rule));
}

fn main(rt: HostRuntime) {
    judge(&rt, "judge 4096 states", 4096, 131072);
    judge(&rt, "judge 4097 states", 4097, 131104);
    judge(
        &rt,
        "judge 2^59 + 1 states, 32 cells",
        576460752303423489,
        32,
    );
    judge(
        &rt,
        "judge 2^64 - 1 states, no cell",
        18446744073709551615,
        0,
    );
    fit(&rt, "fit 64 by 64", 64, 64, 4096);
    fit(&rt, "fit 64 by 65", 64, 65, 4160);
    fit(&rt, "fit 4096 by 1", 4096, 1, 4096);
    fit(&rt, "fit 4096 by 2", 4096, 2, 8192);
    fit(&rt, "fit 64 by 64, a flag short", 64, 64, 4095);
    follow(&rt, "follow signal 31", 31);
    follow(&rt, "follow signal 0", 0);
    follow(&rt, "follow signal 30, not declared", 30);
    follow(&rt, "follow signal 32", 32);
    follow(&rt, "follow signal 2^64 - 1", 18446744073709551615);
    read(&rt, "read 32 names", 172);
    read(&rt, "read 33 names", 177);
}
