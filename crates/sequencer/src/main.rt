// The program (document 01, "The program and one full run"): reads module.tab and plan.tab in the current folder and prints their report. The
// library makes every byte of the report, also for a file that cannot be read; here files are read, room is lent and the report is printed.
#![tactic(auto)]

ghost use Rattle.std.specs.Prelude.{◌≡◌, length};

use std::rt::Files;

// Prints the report; if that fails, says so on standard error. The exit status is 0 then too, as of every report. The lister of clashes has a like
// function: no contract can say what is printed, so one that both call would promise nothing.
fn print(rt: &(impl Print + Eprint), report: &[u8]) {
    if let Err(e) = rt.write_all(report) {
        let _ = eprintln!(rt; "sequencer: the report could not be written: {e}");
    }
}

// Reads both files before any text is looked at. Nothing of the report is cut off: it has 65,608 bytes at most.
fn run(
    rt: &(impl Files + Print + Eprint),
    m: &mut [u8],
    p: &mut [u8],
    cm: &mut [u16],
    cp: &mut [u16],
    cells: &mut [u16],
    flags: &mut [u8],
    out: &mut [u8],
)
    requires { length out.old ≡ 66000 }
{
    let first = files::read(rt, b"module.tab", m);
    let second = files::read(rt, b"plan.tab", p);
    let n = report::sequencer_output(first, second, m, p, cm, cp, cells, flags, out);
    print(rt, &out[0..n]);
}

// Lends room for 1,024 pairs, and for one byte more than the longest text, so that a longer file is noticed.
fn main(rt: HostRuntime) {
    let mut m = [0u8; 65537];
    let mut p = [0u8; 65537];
    let mut cm = [65535u16; 32768];
    let mut cp = [65535u16; 32768];
    let mut cells = [65535u16; 32768];
    let mut flags = [0u8; 1024];
    let mut out = [0u8; 66000];
    run(
        &rt, &mut m, &mut p, &mut cm, &mut cp, &mut cells, &mut flags, &mut out,
    );
}
