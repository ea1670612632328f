// Makes every byte that the programs print, in a lent buffer: the report of two texts (document 01, "The program and one full run") and the list of
// clashes (document 02, S-9).
#![tactic(auto)]

ghost use Rattle.std.specs.Prelude.{◌≡◌, true, false, ◌*◌, ◌≤◌, min, length, take};
ghost use Rattle.theory.specs.Table.{table};
ghost use Rattle.theory.specs.Checks.{first};
ghost use Rattle.text.specs.Writing.{writer_checks};
ghost use Rattle.emit.specs.Buffer.{after, stored};
ghost use Rattle.names.specs.LentNames.{texts};
ghost use Rattle.report.specs.SignalNames.{sequencer_word};
ghost use Rattle.report.specs.Report.{room_of, text_checks, with_text, report_text, report_buffers};
ghost use Rattle.report.specs.Parts.{six_lines_of, table_of, lent_table, Answers, made_checked, made_text, Makes, Holds, Fitting, Leaves, report_reply, report_bytes};

use printout::refusal_line;
use synthesis::Synthesis;
use text::TextRefusal;
use theory::{Automaton, Refusal};

mod listing;
mod named;
mod printout;
mod programs;

pub use listing::list;
pub use programs::{clashes_output, sequencer_output};

// A table, whose cells are lent.
#[derive(Clone, Copy)]
struct Lent<'a> {
    pub header: Automaton,
    pub cells: &'a [u16],
}

// What the maker left in its buffers: the table of the outcome, how many rounds it took, and a flag for each pair.
#[derive(Clone, Copy)]
struct Built<'a> {
    pub header: Automaton,
    pub rounds: usize,
    pub cells: &'a [u16],
    pub flags: &'a [u8],
}

// Puts the six lines over what the maker left in its buffers.
fn six_lines(out: &mut [u8], compatible: bool, built: Built) -> usize
    ensures value { result ≡ after (length out.old) 0 (six_lines_of compatible built.entry) }
    ensures out_after { out.new ≡ stored out.old 0 (six_lines_of compatible built.entry) }
{
    let Built {
        header,
        rounds,
        cells,
        flags,
    } = built;
    let kept = table::count_kept(flags);
    let steps = table::count_steps(header.states, cells);
    let ends = reach::count_ends(header, cells, flags);
    printout::figures(out, compatible, header.states, kept, rounds, steps, ends)
}

// Makes the text of the sequencer in room for N bytes, and puts the six lines and the text behind them. Puts nothing if the writer refuses.
fn put_text<const N: usize>(names: &[&[u8]], built: Built, out: &mut [u8]) -> Result<usize, Refusal>
    requires { N ≤ 65536 }
    ensures { Answers (first (writer_checks (table_of built.entry) sequencer_word (texts names.now) N)) (with_text (texts names.now) (table_of built.entry) (six_lines_of true built.entry)) out.old result out.new }
{
    let mut room = [0u8; N];
    let text = &mut room[..];
    let n = writer::write(built.header, built.cells, b"sequencer", names, text)?;
    let at = six_lines(out, true, built);
    Ok(emit::put(out, at, &text[0..n]))
}

// Tries room for a text of a few dozen lines first: blanking room for the longest takes longer than all else for most runs.
fn with_text(names: &[&[u8]], built: Built, out: &mut [u8]) -> Result<usize, Refusal>
    ensures { Answers (first (text_checks (texts names.now) (table_of built.entry))) (with_text (texts names.now) (table_of built.entry) (six_lines_of true built.entry)) out.old result out.new }
{
    match put_text::<4096>(names, built, out) {
        Ok(end) => Ok(end),
        Err(_) => put_text::<65536>(names, built, out),
    }
}

// Tells of what the maker made.
fn tell(
    names: &[&[u8]],
    made: Synthesis,
    cells: &[u16],
    flags: &[u8],
    out: &mut [u8],
) -> Result<usize, Refusal>
    ensures { Answers (made_checked (texts names.now) made cells.now) (made_text (texts names.now) made cells.now flags.now) out.old result out.new }
{
    match made {
        Synthesis::Controller { header, rounds } => {
            let built = Built {
                header,
                rounds,
                cells,
                flags,
            };
            with_text(names, built, out)
        }
        Synthesis::NoController { header, rounds } => {
            let built = Built {
                header,
                rounds,
                cells,
                flags,
            };
            Ok(six_lines(out, false, built))
        }
    }
}

// Makes the sequencer of the two tables in buffers for as many pairs as there are flags, and tells of it.
fn make(
    names: &[&[u8]],
    a: Lent,
    b: Lent,
    cells: &mut [u16],
    flags: &mut [u8],
    out: &mut [u8],
) -> Result<usize, Refusal>
    requires { length cells.old ≡ length flags.old * 32 }
    ensures { Makes (texts names.now) (lent_table a.entry) (lent_table b.entry) (length flags.old) out.old result cells.new flags.new out.new }
{
    let made = synthesis::synthesize(a.header, a.cells, b.header, b.cells, cells, flags)?;
    tell(names, made, cells, flags, out)
}

// Counts the pairs that the maker is lent for two tables of so many states: as many as there are, or as there is room for; 1,024 at most, whatever is
// lent here.
fn pairs_lent(a: usize, b: usize, cells: usize, flags: usize) -> usize
    requires { a * b ≤ 16777216 }
    ensures value { result ≡ min (a * b) (room_of cells flags) }
    ensures fitting { Fitting cells flags result }
{
    let room = (cells / 32).min(flags).min(1024);
    (a * b).min(room)
}

// Copies cells to the front of a buffer that has room for them.
fn copy(cells: &mut [u16], made: &[u16])
    requires { length made.now ≤ length cells.old }
    ensures { cells.new ≡ stored cells.old 0 made.now }
{
    cells[0..made.len()].copy_from_slice(made);
}

// Makes room in a function of one line, so that no goal elsewhere shows all of its elements.
fn blank<T: Copy, const N: usize>(element: T) -> [T; N]
    ensures { length result ≡ N }
{
    [element; N]
}

// Makes and tells in room of its own; the result is copied into the lent buffers only when nothing can be refused any more.
fn make_apart(
    names: &[&[u8]],
    a: Lent,
    b: Lent,
    cells: &mut [u16],
    flags: &mut [u8],
    out: &mut [u8],
) -> Result<usize, Refusal>
    requires { a.header.states * b.header.states ≤ 16777216 }
    ensures { Leaves (texts names.now) (lent_table a.entry) (lent_table b.entry) cells.old flags.old out.old result cells.new flags.new out.new }
{
    let n = pairs_lent(a.header.states, b.header.states, cells.len(), flags.len());
    let ends = n * 32;
    let mut made = blank::<u16, 32768>(65535);
    let mut kept = blank::<u8, 1024>(0);
    let end = make(names, a, b, &mut made[0..ends], &mut kept[0..n], out)?;
    copy(cells, &made[0..ends]);
    emit::put(flags, 0, &kept[0..n]);
    Ok(end)
}

// Makes and tells, where the cells of the two tables may stand in longer buffers.
fn make_in(
    names: &[&[u8]],
    a: Automaton,
    ca: &[u16],
    b: Automaton,
    cb: &[u16],
    cells: &mut [u16],
    flags: &mut [u8],
    out: &mut [u8],
) -> Result<usize, Refusal>
    requires holds { Holds a ca.now }
    requires holds_2 { Holds b cb.now }
    ensures { Leaves (texts names.now) (table a (take (a.states * 32) ca.now)) (table b (take (b.states * 32) cb.now)) cells.old flags.old out.old result cells.new flags.new out.new }
{
    let ea = a.states * 32;
    let eb = b.states * 32;
    let module = Lent {
        header: a,
        cells: &ca[0..ea],
    };
    let plan = Lent {
        header: b,
        cells: &cb[0..eb],
    };
    make_apart(names, module, plan, cells, flags, out)
}

// Reads the two texts, makes the sequencer, and puts what is printed of it; or tells why that is refused, and puts nothing.
fn try_report<'a>(
    m: &'a [u8],
    p: &'a [u8],
    cm: &mut [u16],
    cp: &mut [u16],
    cells: &mut [u16],
    flags: &mut [u8],
    out: &mut [u8],
) -> Result<usize, TextRefusal>
    ensures value { result ≡ report_reply m.now p.now (length cm.old) (length cp.old) (length cells.old) (length flags.old) (length out.old) }
    ensures out_after { out.new ≡ report_bytes m.now p.now (length cm.old) (length cp.old) (length cells.old) (length flags.old) out.old }
    ensures buffers_after { (cm.new, cp.new, cells.new, flags.new) ≡ report_buffers m.now p.now cm.old cp.old cells.old flags.old }
{
    let read = reader::read_named(m, p, cm, cp)?;
    match named::make_named(m, p, read, cm, cp, cells, flags, out) {
        Ok(end) => Ok(end),
        Err(r) => {
            table::clear(cm);
            table::clear(cp);
            Err(TextRefusal {
                rule: r.rule,
                text: r.table,
                line: 0,
            })
        }
    }
}

// Reads the text m of the module and p of the plan, makes the sequencer, and writes what is to be printed. Returns where that ends: 65,608 at most
// (72 bytes for the six lines, 65,536 for the text), or one past the end of `out` if it did not fit. The cells of the two tables are left in `cm`
// and `cp`, those of the sequencer in `cells`, and its flags in `flags`. A refusal leaves `cm` and `cp` without steps, and `cells` and `flags` as
// they were.
pub fn report<'a>(
    m: &'a [u8],
    p: &'a [u8],
    cm: &mut [u16],
    cp: &mut [u16],
    cells: &mut [u16],
    flags: &mut [u8],
    out: &mut [u8],
) -> usize
    ensures value { result ≡ after (length out.old) 0 (report_text m.now p.now (length cm.old) (length cp.old) (length cells.old) (length flags.old)) }
    ensures out_after { out.new ≡ stored out.old 0 (report_text m.now p.now (length cm.old) (length cp.old) (length cells.old) (length flags.old)) }
    ensures buffers_after { (cm.new, cp.new, cells.new, flags.new) ≡ report_buffers m.now p.now cm.old cp.old cells.old flags.old }
    ensures upper_bound { result ≤ 65608 }
{
    match try_report(m, p, cm, cp, cells, flags, out) {
        Ok(end) => end,
        Err(r) => refusal_line(out, r),
    }
}
