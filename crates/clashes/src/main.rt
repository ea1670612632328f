// The lister of clashes (document 02, S-9): reads module.tab and plan.tab in the current folder as the archive reading does, and prints where a
// name differs from an earlier one only in the case of letters. The library makes every byte of the list, also for a file that cannot be read; here
// files are read, room is lent and the list is printed.
#![tactic(auto)]

ghost use Rattle.std.specs.Prelude.{◌≡◌, length};

use std::rt::Files;

// Prints the list; if that fails, says so on standard error. The exit status is 0 then too, as of every list. The program `sequencer` has a like
// function: no contract can say what is printed, so one that both call would promise nothing.
fn print(rt: &(impl Print + Eprint), list: &[u8]) {
    if let Err(e) = rt.write_all(list) {
        let _ = eprintln!(rt; "clashes: the list could not be written: {e}");
    }
}

// Reads both files before any text is looked at. Nothing of the list is cut off: it has 768 bytes at most.
fn run(
    rt: &(impl Files + Print + Eprint),
    m: &mut [u8],
    p: &mut [u8],
    cm: &mut [u16],
    cp: &mut [u16],
    out: &mut [u8],
)
    requires { length out.old ≡ 1024 }
{
    let first = files::read(rt, b"module.tab", m);
    let second = files::read(rt, b"plan.tab", p);
    let n = report::clashes_output(first, second, m, p, cm, cp, out);
    print(rt, &out[0..n]);
}

// Lends as many cells as the program `sequencer` does, and room for one byte more than the longest text, so that a longer file is noticed.
fn main(rt: HostRuntime) {
    let mut m = [0u8; 65537];
    let mut p = [0u8; 65537];
    let mut cm = [65535u16; 32768];
    let mut cp = [65535u16; 32768];
    let mut out = [0u8; 1024];
    run(&rt, &mut m, &mut p, &mut cm, &mut cp, &mut out);
}
