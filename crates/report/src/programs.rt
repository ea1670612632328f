// What the programs print, from what they read: the program (document 01, "The program and one full run") and the lister of clashes (document 02,
// S-9). Reading the files and printing are left to their crates.
ghost use Rattle.std.specs.Prelude.{◌≡◌, ◌≤◌, length};
ghost use Rattle.emit.specs.Buffer.{after, stored};
ghost use Rattle.report.specs.Lines.{refusal_text};
ghost use Rattle.report.specs.Programs.{files_read, program_text, program_buffers, clashes_text, clashes_cells};

use crate::{listing, printout};
use text::TextRefusal;
use theory::Rule;

// Puts the results of reading two files together: how many bytes were read of each; or the first of the files, 1 or 2, that cannot be read.
fn both(first: Option<usize>, second: Option<usize>) -> Result<(usize, usize), u32>
    ensures { result ≡ files_read first second }
{
    let i = first.ok_or(1u32)?;
    let j = second.ok_or(2u32)?;
    Ok((i, j))
}

// Puts the line of refusal 24 at the start of the buffer: the file cannot be read.
fn unreadable_line(out: &mut [u8], file: u32) -> usize
    ensures value { result ≡ after (length out.old) 0 (refusal_text file 24 0) }
    ensures out_after { out.new ≡ stored out.old 0 (refusal_text file 24 0) }
    ensures upper_bound { result ≤ 26 }
{
    let refusal = TextRefusal {
        rule: Rule::UnreadableFile,
        text: file,
        line: 0,
    };
    printout::refusal_line(out, refusal)
}

// Writes all that the program prints, by the results of reading its two files: refusal 24 for the first unreadable one, else the report. Each text
// stands at the start of its buffer. Returns the place after it, 65,608 at most.
pub fn sequencer_output<'a>(
    first: Option<usize>,
    second: Option<usize>,
    m: &'a [u8],
    p: &'a [u8],
    cm: &mut [u16],
    cp: &mut [u16],
    cells: &mut [u16],
    flags: &mut [u8],
    out: &mut [u8],
) -> usize
    ensures value { result ≡ after (length out.old) 0 (program_text first second m.now p.now (length cm.old) (length cp.old) (length cells.old) (length flags.old)) }
    ensures out_after { out.new ≡ stored out.old 0 (program_text first second m.now p.now (length cm.old) (length cp.old) (length cells.old) (length flags.old)) }
    ensures buffers_after { (cm.new, cp.new, cells.new, flags.new) ≡ program_buffers first second m.now p.now cm.old cp.old cells.old flags.old }
    ensures upper_bound { result ≤ 65608 }
{
    match both(first, second) {
        Ok((i, j)) => {
            let module = lines::before(m, i);
            let plan = lines::before(p, j);
            crate::report(module, plan, cm, cp, cells, flags, out)
        }
        Err(file) => unreadable_line(out, file),
    }
}

// Writes all that the lister of clashes prints, by the results of reading its two files: refusal 24 for the first unreadable one, else the list.
// Each text stands at the start of its buffer. Returns the place after it, 768 at most.
pub fn clashes_output<'a>(
    first: Option<usize>,
    second: Option<usize>,
    m: &'a [u8],
    p: &'a [u8],
    cm: &mut [u16],
    cp: &mut [u16],
    out: &mut [u8],
) -> usize
    ensures value { result ≡ after (length out.old) 0 (clashes_text first second m.now p.now (length cm.old) (length cp.old)) }
    ensures out_after { out.new ≡ stored out.old 0 (clashes_text first second m.now p.now (length cm.old) (length cp.old)) }
    ensures buffers_after { (cm.new, cp.new) ≡ clashes_cells first second m.now p.now cm.old cp.old }
    ensures upper_bound { result ≤ 768 }
{
    match both(first, second) {
        Ok((i, j)) => {
            let module = lines::before(m, i);
            let plan = lines::before(p, j);
            listing::list(module, plan, cm, cp, out)
        }
        Err(file) => unreadable_line(out, file),
    }
}
