// Lists the clashes among the names of two stored texts (document 02, S-9).
ghost use Rattle.std.specs.Prelude.{◌≡◌, ◌==◌, [], ◌+◌, ◌<◌, length, count_by};
ghost use Rattle.text.specs.declared.Spelling.TheVariants.{Exact};
ghost use Rattle.text.specs.Reading.{read_both, cells_first, cells_second};
ghost use Rattle.text.specs.Clashes.{line_of, declared_at, clashes_of};
ghost use Rattle.names.specs.Numbering.{signal_at, signals_of, Fit};
ghost use Rattle.reader.specs.Clashes.{in_rows, listing, with_clash, clashes_below, Visitable};

use crate::state::States;
use crate::{ClashList, texts};
use names::{Name, Names};
use text::{Clash, Declaration, Spelling, TextRefusal};

// Counts the LFs in a part of a text; each ends a line. It adds 0 or 1 for each byte, since the compiler makes no such loop of `filter` and `count`.
fn ends(part: &[u8]) -> usize
    ensures { result ≡ count_by (λ x. x == 10) part.now }
{
    let mut count = 0;
    for byte in part {
        count += usize::from(*byte == b'\n');
    }
    count
}

// Counts the lines of a text up to the one that its byte `from` stands in.
fn line_of(text: &[u8], from: usize) -> usize
    ensures { result ≡ line_of text.now from }
{
    ends(lines::before(text, from)) + 1
}

// Finds where a name is declared.
fn declared_at<'a>(m: &'a [u8], p: &'a [u8], name: Name) -> Declaration
    ensures { result ≡ declared_at m.now p.now (signal_at m.now p.now name) }
{
    let text = names::text_in(name);
    let line = line_of(names::text_of(m, p, text), usize::from(name.from));
    Declaration { text, line }
}

// Returns the list of no clash.
fn none() -> ClashList
    ensures { result ≡ in_rows [] }
{
    let nowhere = Declaration { text: 0, line: 0 };
    ClashList {
        rows: [Clash {
            later: nowhere,
            first: nowhere,
        }; 32],
        count: 0,
    }
}

// Adds the clash of a name with an earlier one.
fn add<'a>(m: &'a [u8], p: &'a [u8], clashes: ClashList, later: Name, first: Name) -> ClashList
    requires { clashes.count < 32 }
    ensures { result ≡ with_clash clashes (declared_at m.now p.now (signal_at m.now p.now later)) (declared_at m.now p.now (signal_at m.now p.now first)) }
{
    let mut rows = clashes.rows;
    let count = clashes.count;
    rows[count] = Clash {
        later: declared_at(m, p, later),
        first: declared_at(m, p, first),
    };
    ClashList {
        rows,
        count: count + 1,
    }
}

// Adds the clash of the signal i, if it has one, to those of the signals below it: with the first of these whose name matches it when case is ignored.
fn visit<'a>(m: &'a [u8], p: &'a [u8], signals: Names, i: usize, clashes: ClashList) -> ClashList
    requires { Visitable m.now p.now signals i clashes }
    ensures { result ≡ in_rows (clashes_below m.now p.now (signals_of m.now p.now signals) (i + 1)) }
{
    let name = signals.entries[i];
    let j = names::find(m, p, Spelling::Folded, signals, names::bytes_of(m, p, name));
    if j < i {
        return add(m, p, clashes, name, signals.entries[j]);
    }
    clashes
}

// Holds each name against those before it.
fn list<'a>(m: &'a [u8], p: &'a [u8], signals: Names) -> ClashList
    requires { Fit m.now p.now signals }
    ensures { result ≡ in_rows (clashes_of m.now p.now (signals_of m.now p.now signals)) }
{
    let mut clashes = none();
    for i in 0..signals.count {
        clashes = visit(m, p, signals, i, clashes);
    }
    clashes
}

// Lists the clashes in the stored texts of a component and a specification (document 01: module, plan). Reads them into the lent cells as
// `read_together` does with `Spelling::Exact`.
pub fn list_clashes<'a>(
    m: &'a [u8],
    p: &'a [u8],
    cm: &mut [u16],
    cp: &mut [u16],
) -> Result<ClashList, TextRefusal>
    ensures value { result ≡ listing m.now p.now (read_both Exact (length cm.old) m.now (length cp.old) p.now) }
    ensures cm_after { cm.new ≡ cells_first (length cm.old) (read_both Exact (length cm.old) m.now (length cp.old) p.now) }
    ensures cp_after { cp.new ≡ cells_second (length cp.old) (read_both Exact (length cm.old) m.now (length cp.old) p.now) }
{
    let States { second, .. } = texts::read_both(m, p, Spelling::Exact, cm, cp)?;
    Ok(list(m, p, second.signals))
}
