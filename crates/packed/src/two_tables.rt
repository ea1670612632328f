// Compatibility (document 01: fit) and refinement of two tables whose cells are bytes, as a C program holds them. The cells are unpacked into room
// on the stack: less room for small tables, since clearing the larger room takes longer than judging them.
ghost use Rattle.std.specs.Prelude.{◌≡◌, ◌≤◌, length};
ghost use Rattle.packed.specs.Calls.{Gives};
ghost use Rattle.packed.specs.Bytes.{cells_of_bytes, cell_count};
ghost use Rattle.packed.specs.Contract.{fit_of_bytes, flags_of_bytes, refine_of_bytes, marks_of_bytes};

use crate::cells;
use compatibility::Compatibility;
use theory::{Automaton, Refusal};

// Makes a call on the cells of two tables and a lent buffer, in room for so many cells of each.
fn in_room<const CELLS: usize, R, F: FnOnce(&[u16], &[u16], &mut [u8]) -> R>(
    a: Automaton,
    ba: &[u8],
    b: Automaton,
    bb: &[u8],
    buffer: &mut [u8],
    call: F,
) -> R
    requires first_fits { cell_count a.states (length ba.now) ≤ CELLS }
    requires second_fits { cell_count b.states (length bb.now) ≤ CELLS }
    requires room_fits { CELLS ≤ 131072 }
    requires callable { F.IsAlwaysCallable call }
    ensures { Gives F.FnOnce call (cells_of_bytes a.states ba.now) (cells_of_bytes b.states bb.now) buffer.old result buffer.new }
{
    let mut room_a = [65535u16; CELLS];
    let mut room_b = [65535u16; CELLS];
    let ca = cells::unpack(a.states, ba, &mut room_a);
    let cb = cells::unpack(b.states, bb, &mut room_b);
    call(ca, cb, buffer)
}

// Makes a call on the cells of two tables and a lent buffer, in room for 64 states each or for as many as a table may have.
#[tactic(auto, unfolding(crate::specs::Bytes::cell_count))]
fn on_cells<R, F: FnOnce(&[u16], &[u16], &mut [u8]) -> R>(
    a: Automaton,
    ba: &[u8],
    b: Automaton,
    bb: &[u8],
    buffer: &mut [u8],
    call: F,
) -> R
    requires { F.IsAlwaysCallable call }
    ensures { Gives F.FnOnce call (cells_of_bytes a.states ba.now) (cells_of_bytes b.states bb.now) buffer.old result buffer.new }
{
    if a.states <= 64 && b.states <= 64 {
        in_room::<2048, _, _>(a, ba, b, bb, buffer, call)
    } else {
        in_room::<131072, _, _>(a, ba, b, bb, buffer, call)
    }
}

// Decides whether two tables are compatible, with the reply and flags of `compatibility::compatible`.
pub fn fit(
    a: Automaton,
    ba: &[u8],
    b: Automaton,
    bb: &[u8],
    flags: &mut [u8],
) -> Result<Compatibility, Refusal>
    ensures value { result ≡ fit_of_bytes a ba.now b bb.now (length flags.old) }
    ensures flags_after { flags.new ≡ flags_of_bytes a ba.now b bb.now flags.old }
{
    on_cells(a, ba, b, bb, flags, |ca, cb, flags| {
        compatibility::compatible(a, ca, b, cb, flags)
    })
}

// Decides whether the first table refines the second, with the reply and marks of `refinement::refine`.
pub fn refine(
    a: Automaton,
    ba: &[u8],
    b: Automaton,
    bb: &[u8],
    marks: &mut [u8],
) -> Result<bool, Refusal>
    ensures value { result ≡ refine_of_bytes a ba.now b bb.now (length marks.old) }
    ensures marks_after { marks.new ≡ marks_of_bytes a ba.now b bb.now marks.old }
{
    on_cells(a, ba, b, bb, marks, |ca, cb, marks| {
        refinement::refine(a, ca, b, cb, marks)
    })
}
