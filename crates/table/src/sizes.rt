// Sizes of two tables and of a buffer with an entry for each state pair.
ghost use Rattle.std.specs.Prelude.{◌≡◌};
ghost use Rattle.theory.specs.Table.{table};
ghost use Rattle.table.specs.Ready.{ready};

use theory::Automaton;

// Tells whether the sizes fit: the initial states exist, each automaton has 32 cells for each state, and there are 4,096 state pairs at most,
// `pairs` in number. A search or a writer of cells asks it once, so that no index below it can be out of range.
pub fn is_ready(a: Automaton, ca: &[u16], b: Automaton, cb: &[u16], pairs: usize) -> bool
    ensures { result ≡ ready (table a ca.now) (table b cb.now) pairs }
{
    a.initial < a.states
        && b.initial < b.states
        && a.states <= 4096
        && b.states <= 4096
        && a.states * b.states <= 4096
        && ca.len() == a.states * 32
        && cb.len() == b.states * 32
        && pairs == a.states * b.states
}
