// Reads a text alone, or two texts together, to the end.
ghost use Rattle.std.specs.Prelude.{◌≡◌, ◌≤◌, ◌<◌, length};
ghost use Rattle.text.specs.Reading.{text_of};
ghost use Rattle.names.specs.Numbering.{Fit};
ghost use Rattle.reader.specs.State.{fresh_state, Blank, ReadsLines, Reads, ReadsOne, ReadsBoth};

use crate::entries;
use crate::state::{State, States};
use lines::Line;
use names::Names;
use text::{Place, Spelling, TextRefusal};
use theory::Rule;

// Returns the state before the first line.
fn fresh(signals: Names) -> State
    ensures { result ≡ fresh_state signals }
{
    State {
        place: Place::Head,
        header: table::header(0, 0, 0, 0),
        signals,
    }
}

// Makes the refusal of a text at a line, or at none.
fn refusal(rule: Rule, text: u8, line: usize) -> TextRefusal
    ensures { result ≡ record { rule = rule; text = text; line = line } }
{
    TextRefusal {
        rule,
        text: u32::from(text),
        line,
    }
}

// Reads the lines of a text into blank cells. After the last LF nothing may stand (14).
fn read_lines<'a>(
    m: &'a [u8],
    p: &'a [u8],
    text: u8,
    spelling: Spelling,
    signals: Names,
    cells: &mut [u16],
) -> Result<State, TextRefusal>
    requires fit { Fit m.now p.now signals }
    requires blank { Blank cells.old }
    requires text_len_bound { length (text_of m.now p.now text) ≤ 65536 }
    requires text_bound { text < 4 }
    ensures { ReadsLines m.now p.now text spelling signals (length cells.old) result cells.new }
{
    let bytes = names::text_of(m, p, u32::from(text));
    let mut st = fresh(signals);
    let mut at: usize = 0;
    let mut number: usize = 1;
    while at < bytes.len() {
        let rest = lines::after(bytes, at);
        // Document 01 has each line's parse taken by `let else`.
        let parsed = lines::parse(rest, st.place);
        let Ok(Line { record, length }) = parsed else {
            return Err(refusal(parsed.unwrap_err(), text, number));
        };
        let line = lines::before(rest, length);
        let entered = entries::enter(m, p, text, spelling, st, cells, at, line, record);
        st = entered.map_err(|rule| refusal(rule, text, number))?;
        at += length + 1;
        number += 1;
    }
    Ok(st)
}

// Reads a text into blank cells, where some signals are numbered already: 13, then its lines; 22.
fn read<'a>(
    m: &'a [u8],
    p: &'a [u8],
    text: u8,
    spelling: Spelling,
    signals: Names,
    cells: &mut [u16],
) -> Result<State, TextRefusal>
    requires fit { Fit m.now p.now signals }
    requires blank { Blank cells.old }
    requires text_bound { text < 4 }
    ensures { Reads m.now p.now text spelling signals (length cells.old) result cells.new }
{
    let bytes = names::text_of(m, p, u32::from(text));
    if 65536 < bytes.len() {
        return Err(refusal(Rule::TextLength, text, 0));
    }
    if bytes.is_empty() {
        return Err(refusal(Rule::EmptyText, text, 0));
    }
    let reading = read_lines(m, p, text, spelling, signals, cells);
    table::clear_if(reading.is_err(), cells);
    reading
}

// Reads a text alone: it counts as the first, and its signals are numbered from 0.
pub fn read_one(m: &[u8], spelling: Spelling, cells: &mut [u16]) -> Result<State, TextRefusal>
    ensures { ReadsOne m.now spelling (length cells.old) result cells.new }
{
    table::clear(cells);
    read(m, m, 1, spelling, names::none(), cells)
}

// Reads the text of a component to its end, then that of a specification, whose new signals continue the numbering. If the first is refused, nothing
// is read of the second.
pub fn read_both<'a>(
    m: &'a [u8],
    p: &'a [u8],
    spelling: Spelling,
    cm: &mut [u16],
    cp: &mut [u16],
) -> Result<States, TextRefusal>
    ensures { ReadsBoth m.now p.now spelling (length cm.old) (length cp.old) result cm.new cp.new }
{
    table::clear(cm);
    table::clear(cp);
    let first = read(m, p, 1, spelling, names::none(), cm)?;
    let second = read(m, p, 2, spelling, first.signals, cp);
    table::clear_if(second.is_err(), cm);
    Ok(States {
        first,
        second: second?,
    })
}
