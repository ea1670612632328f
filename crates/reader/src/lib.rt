// Reads table text (document 01, "Table text"), line by line to its end: the texts of a component and a specification (module, plan) together, or a
// text alone; into lent cells, to find where a name stands, or to list the clashes among the names of two stored texts (document 02, S-9).
#![tactic(auto)]

ghost use Rattle.std.specs.Prelude.{◌≡◌, length, IfOk};
ghost use Rattle.text.specs.declared.Spelling.TheVariants.{Folded};
ghost use Rattle.text.specs.Reading.{read_alone, read_both, cells_alone, cells_first, cells_second};
ghost use Rattle.names.specs.Numbering.{signals_of};
ghost use Rattle.reader.specs.Contract.{alone_reply, together_reply, named_reply, signals_read};

use names::Names;
use state::States;
use text::{Clash, Spelling, TextRefusal};
use theory::Automaton;

mod clashes;
mod entries;
mod lookup;
mod state;
mod texts;

pub use clashes::list_clashes;
pub use lookup::{name, name_alone, number, number_alone};

// Headers of the automata of two texts that were read together, whose cells are in the lent buffers.
#[derive(Clone, Copy)]
pub struct Tables {
    pub component: Automaton,
    pub specification: Automaton,
}

// The same with the table of the names that their signals have.
#[derive(Clone, Copy)]
pub struct NamedTables {
    pub component: Automaton,
    pub specification: Automaton,
    pub names: Names,
}

// Names that clash with one declared before them, in reading order: the first `count` rows; the other rows are not used. It is an array with a count,
// since nothing is allocated.
#[derive(Clone, Copy)]
pub struct ClashList {
    pub rows: [Clash; 32],
    pub count: usize,
}

// Reads a text alone into lent cells, and returns the header of its automaton. The archive reading, which tells names apart by their bytes alone, is
// that of `Spelling::Exact`: by document 01's rule names that differ only in the case of letters are names of two signals. Cells beyond the table,
// and all cells after a refusal, are 65,535.
pub fn read_alone(m: &[u8], spelling: Spelling, cells: &mut [u16]) -> Result<Automaton, TextRefusal>
    ensures value { result ≡ alone_reply (read_alone spelling (length cells.old) m.now) }
    ensures cells_after { cells.new ≡ cells_alone (length cells.old) (read_alone spelling (length cells.old) m.now) }
{
    let end = texts::read_one(m, spelling, cells)?;
    Ok(end.header)
}

// Reads the text of a component (document 01: module) to its end, then that of a specification (plan), into lent cells, by the archive reading for
// `Spelling::Exact`; signals are numbered as first declared in the two. Cells beyond a table, and all cells after a refusal, are 65,535.
pub fn read_together<'a>(
    m: &'a [u8],
    p: &'a [u8],
    spelling: Spelling,
    cm: &mut [u16],
    cp: &mut [u16],
) -> Result<Tables, TextRefusal>
    ensures value { result ≡ together_reply (read_both spelling (length cm.old) m.now (length cp.old) p.now) }
    ensures cm_after { cm.new ≡ cells_first (length cm.old) (read_both spelling (length cm.old) m.now (length cp.old) p.now) }
    ensures cp_after { cp.new ≡ cells_second (length cp.old) (read_both spelling (length cm.old) m.now (length cp.old) p.now) }
{
    let States { first, second } = texts::read_both(m, p, spelling, cm, cp)?;
    Ok(Tables {
        component: first.header,
        specification: second.header,
    })
}

// Reads two texts as `read_together` does with letters folded, and returns the names of their signals too, so that who needs them does not have to
// read again.
pub fn read_named<'a>(
    m: &'a [u8],
    p: &'a [u8],
    cm: &mut [u16],
    cp: &mut [u16],
) -> Result<NamedTables, TextRefusal>
    ensures value { result ≡ named_reply (read_both Folded (length cm.old) m.now (length cp.old) p.now) }
    ensures names_value { IfOk result (λ r. signals_of m.now p.now r.names ≡ signals_read (read_both Folded (length cm.old) m.now (length cp.old) p.now)) }
    ensures cm_after { cm.new ≡ cells_first (length cm.old) (read_both Folded (length cm.old) m.now (length cp.old) p.now) }
    ensures cp_after { cp.new ≡ cells_second (length cp.old) (read_both Folded (length cm.old) m.now (length cp.old) p.now) }
{
    let States { first, second } = texts::read_both(m, p, Spelling::Folded, cm, cp)?;
    Ok(NamedTables {
        component: first.header,
        specification: second.header,
        names: second.signals,
    })
}
