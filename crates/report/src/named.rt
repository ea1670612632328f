// Gives the signals of the two tables the names that their texts gave them.
ghost use Rattle.std.specs.Prelude.{◌*◌, take};
ghost use Rattle.theory.specs.Table.{table};
ghost use Rattle.report.specs.SignalNames.{names_in};
ghost use Rattle.report.specs.Parts.{Holds, Leaves};

use reader::NamedTables;
use std::array;
use theory::Refusal;

// Makes the sequencer of the two tables that were read, and tells of it with their names.
pub fn make_named<'a>(
    m: &'a [u8],
    p: &'a [u8],
    read: NamedTables,
    ca: &[u16],
    cb: &[u16],
    cells: &mut [u16],
    flags: &mut [u8],
    out: &mut [u8],
) -> Result<usize, Refusal>
    requires holds { Holds read.component ca.now }
    requires holds_2 { Holds read.specification cb.now }
    ensures { Leaves (names_in m.now p.now read.names) (table read.component (take (read.component.states * 32) ca.now)) (table read.specification (take (read.specification.states * 32) cb.now)) cells.old flags.old out.old result cells.new flags.new out.new }
{
    let names = read.names;
    let parts: [&[u8]; 32] = array::from_fn(|i| names::part(m, p, names, i));
    let a = read.component;
    let b = read.specification;
    crate::make_in(&parts, a, ca, b, cb, cells, flags, out)
}
