// Headers: how each is made, the actions that it declares, those that it sends, and the mirror.
ghost use Rattle.std.specs.Prelude.{◌≡◌};
ghost use Rattle.theory.specs.Table.{header as headerOf, declared_set, sent_set, mirror_header};

use theory::Automaton;

// Makes a header. All code makes its headers here.
pub fn header(states: usize, initial: usize, inputs: u32, outputs: u32) -> Automaton
    ensures { result ≡ headerOf states initial inputs outputs }
{
    Automaton {
        states,
        initial,
        inputs,
        outputs,
    }
}

// Returns the declared actions: inputs and outputs together.
pub fn declared(a: Automaton) -> u32
    ensures { result ≡ declared_set a }
{
    a.inputs | a.outputs
}

// Returns the actions that an automaton can send: its outputs.
pub fn sent(a: Automaton) -> u32
    ensures { result ≡ sent_set a }
{
    a.outputs
}

// Exchanges inputs and outputs, and checks nothing. The sequencer maker mirrors plan and result by it: its checks are not those of `mirror`.
pub fn exchange(a: Automaton) -> Automaton
    ensures { result ≡ mirror_header a }
{
    header(a.states, a.initial, a.outputs, a.inputs)
}
