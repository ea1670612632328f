// Looks up a signal's name by its number (document 01, "Table text"): one call returns it as the part of the lent text where it was first declared,
// empty if the lookup is refused; another says why. With `Spelling::Exact` it reads as the archive reading does (document 02, S-9).
ghost use Rattle.std.specs.Prelude.{◌≡◌, length};
ghost use Rattle.lines.specs.Places.{forward};
ghost use Rattle.text.specs.Reading.{text_of, read_alone, read_both};
ghost use Rattle.text.specs.Lookup.{ample, lookup, lookup_number, lookup_alone, lookup_number_alone};
ghost use Rattle.reader.specs.Places.{name_reply, name_alone_reply};

use crate::state::States;
use crate::{entries, texts};
use text::Spelling;
use theory::Rule;

// Finds the name in two texts, read together into lent cells; what it leaves in them is open.
fn name_in<'a>(
    m: &'a [u8],
    p: &'a [u8],
    spelling: Spelling,
    signal: usize,
    cm: &mut [u16],
    cp: &mut [u16],
) -> Result<&'a [u8], Rule>
    ensures { result ≡ name_reply m.entry.ref_ptr p.entry.ref_ptr (read_both spelling (length cm.old) m.now (length cp.old) p.now) signal }
{
    let States { first, second } = texts::read_both(m, p, spelling, cm, cp).map_err(
        |refusal| refusal.rule,
    )?;
    let declared = table::declared(first.header) | table::declared(second.header);
    if !sets::contains(declared, signal) {
        return Err(Rule::NoAction);
    }
    Ok(names::bytes_of(m, p, second.signals.entries[signal]))
}

// Finds the name in a text that is read alone into lent cells.
fn name_alone_in<'a>(
    m: &'a [u8],
    spelling: Spelling,
    signal: usize,
    cells: &mut [u16],
) -> Result<&'a [u8], Rule>
    ensures { result ≡ name_alone_reply m.entry.ref_ptr (read_alone spelling (length cells.old) m.now) signal }
{
    let end = texts::read_one(m, spelling, cells).map_err(|refusal| refusal.rule)?;
    if !entries::is_declared(end.header, signal) {
        return Err(Rule::NoAction);
    }
    Ok(names::bytes_of(m, m, end.signals.entries[signal]))
}

// Looks the name up in two texts that are read together: the part of the module's or the plan's text where it was first declared; or the rule that
// the lookup breaks. It reads into cells of its own, enough for any table, so that 10 never applies. It is never inlined, or a caller of `name` and
// `number` would have the cells twice on its stack.
#[inline(never)]
fn lookup<'a>(m: &'a [u8], p: &'a [u8], spelling: Spelling, signal: usize) -> Result<&'a [u8], Rule>
    ensures { result ≡ name_reply m.entry.ref_ptr p.entry.ref_ptr (read_both spelling ample m.now ample p.now) signal }
{
    let mut cm = [65535u16; 131072];
    let mut cp = [65535u16; 131072];
    name_in(m, p, spelling, signal, &mut cm, &mut cp)
}

// Looks the name up in a text that is read alone, into cells of its own too.
#[inline(never)]
fn lookup_alone<'a>(m: &'a [u8], spelling: Spelling, signal: usize) -> Result<&'a [u8], Rule>
    ensures { result ≡ name_alone_reply m.entry.ref_ptr (read_alone spelling ample m.now) signal }
{
    let mut cells = [65535u16; 131072];
    name_alone_in(m, spelling, signal, &mut cells)
}

// Returns the name of the signal in two texts read together; the empty part at the start of the module's text if the lookup is refused. Document 01
// has a second call say why, `number`, so that this one cannot fail.
pub fn name<'a>(m: &'a [u8], p: &'a [u8], spelling: Spelling, signal: usize) -> &'a [u8]
    ensures result_value { result.now ≡ (lookup spelling m.now p.now signal).name }
    ensures ref_ptr_value { result.ref_ptr ≡ forward (text_of m.entry.ref_ptr p.entry.ref_ptr (lookup spelling m.now p.now signal).text) (lookup spelling m.now p.now signal).from }
{
    lookup(m, p, spelling, signal).unwrap_or(&m[..0])
}

// Returns why `name` is refused: the number of the reading, never 10, before 12 for an undeclared signal; 0 if it is not refused.
pub fn number<'a>(m: &'a [u8], p: &'a [u8], spelling: Spelling, signal: usize) -> u32
    ensures { result ≡ lookup_number spelling m.now p.now signal }
{
    match lookup(m, p, spelling, signal) {
        Ok(_) => 0,
        Err(rule) => rule.number(),
    }
}

// Returns the name of the signal in a text read alone; the empty part at its start if the lookup is refused.
pub fn name_alone<'a>(m: &'a [u8], spelling: Spelling, signal: usize) -> &'a [u8]
    ensures result_value { result.now ≡ (lookup_alone spelling m.now signal).name }
    ensures ref_ptr_value { result.ref_ptr ≡ forward m.entry.ref_ptr (lookup_alone spelling m.now signal).from }
{
    lookup_alone(m, spelling, signal).unwrap_or(&m[..0])
}

// Returns why `name_alone` is refused: the number of the reading, never 10, before 12 for an undeclared signal; 0 if it is not refused.
pub fn number_alone(m: &[u8], spelling: Spelling, signal: usize) -> u32
    ensures { result ≡ lookup_number_alone spelling m.now signal }
{
    match lookup_alone(m, spelling, signal) {
        Ok(_) => 0,
        Err(rule) => rule.number(),
    }
}
