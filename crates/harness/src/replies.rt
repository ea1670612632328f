// Puts the replies of all calls into one record, which the C ABI can hand back: for tests and benchmarks.
ghost use Rattle.std.specs.Prelude.{◌≡◌};
ghost use Rattle.harness.specs.Contract.{no_table, whole_reply, bare_reply, refused_reply, unread_reply, headed_reply, both_reply, judged, made, followed as followed_reply, fitted, composed, refined, synthesized, alone_read, together_read, written};

use compatibility::Compatibility;
use composition::Composition;
use reader::Tables;
use synthesis::Synthesis;
use table::Status;
use text::TextRefusal;
use theory::{Automaton, Refusal};

// Reply of any call. A field that the call does not set is 0, since C has no Option and no Result.
#[repr(C)]
#[derive(Clone, Copy)]
pub struct Reply {
    // Document 01's number, 0 where nothing is refused; the table or text at fault; the line, for readings.
    pub number: u32,
    pub table: u32,
    pub line: usize,
    // The verdict; whether the monitor moved.
    pub yes: bool,
    // Rounds, a state, or a length.
    pub value: usize,
    // Header of the table given back; of the component, where two texts are read together.
    pub states: usize,
    pub initial: usize,
    pub inputs: u32,
    pub outputs: u32,
    // Header of the specification, where two texts are read together.
    pub states_2: usize,
    pub initial_2: usize,
    pub inputs_2: u32,
    pub outputs_2: u32,
    // Whether the refusal names a cell of the table, and which (document 02, S-2: the place).
    pub placed: bool,
    pub cell_state: usize,
    pub cell_signal: usize,
}

// Makes the header of no table: all its numbers are 0.
fn none() -> Automaton
    ensures { result ≡ no_table }
{
    table::header(0, 0, 0, 0)
}

// Makes a reply with every field given: `a` and `b` are the headers given back.
fn whole(s: Status, line: usize, verdict: bool, value: usize, a: Automaton, b: Automaton) -> Reply
    ensures { result ≡ whole_reply s line verdict value a b }
{
    Reply {
        number: s.number,
        table: s.table,
        line,
        yes: verdict,
        value,
        states: a.states,
        initial: a.initial,
        inputs: a.inputs,
        outputs: a.outputs,
        states_2: b.states,
        initial_2: b.initial,
        inputs_2: b.inputs,
        outputs_2: b.outputs,
        placed: s.placed,
        cell_state: s.state,
        cell_signal: s.action,
    }
}

// Makes a reply that gives back no table and names no cell.
pub fn bare(number: u32, table: u32, line: usize, verdict: bool, value: usize) -> Reply
    ensures { result ≡ bare_reply number table line verdict value }
{
    whole(
        table::status_nowhere(number, table),
        line,
        verdict,
        value,
        none(),
        none(),
    )
}

// Makes the reply of a refused call on tables; `value` is the monitor's state, 0 for any other call.
fn refused(r: Refusal, value: usize) -> Reply
    ensures { result ≡ refused_reply r value }
{
    whole(r.into(), 0, false, value, none(), none())
}

// Makes the reply of a refused reading.
fn unread(r: TextRefusal) -> Reply
    ensures { result ≡ unread_reply r }
{
    bare(r.rule.number(), r.text, r.line, false, 0)
}

// Makes a reply that gives back one table.
fn headed(verdict: bool, value: usize, a: Automaton) -> Reply
    ensures { result ≡ headed_reply verdict value a }
{
    whole(table::accepted(), 0, verdict, value, a, none())
}

// Makes a reply that gives back two tables.
fn both(a: Automaton, b: Automaton) -> Reply
    ensures { result ≡ both_reply a b }
{
    whole(table::accepted(), 0, false, 0, a, b)
}

// Puts the reply of `table::follow` into the record; the value is the state after it, which is `state` if the monitor did not move.
pub fn followed(state: usize, c: Result<Option<usize>, Refusal>) -> Reply
    ensures { result ≡ followed_reply state c }
{
    match c {
        Ok(Some(to)) => bare(0, 0, 0, true, to),
        Ok(None) => bare(0, 0, 0, false, state),
        Err(r) => refused(r, state),
    }
}

// The reply of `table::judge`.
impl From<Result<(), Refusal>> for Reply {
    ghost from_gives = { λ c r. r ≡ judged c };

    fn from(c: Result<(), Refusal>) -> Reply {
        match c {
            Ok(()) => bare(0, 0, 0, false, 0),
            Err(r) => refused(r, 0),
        }
    }
}

// The reply of a call that makes a table: `table::mirror` and `composition::product`.
impl From<Result<Automaton, Refusal>> for Reply {
    ghost from_gives = { λ c r. r ≡ made c };

    fn from(c: Result<Automaton, Refusal>) -> Reply {
        match c {
            Ok(header) => headed(false, 0, header),
            Err(r) => refused(r, 0),
        }
    }
}

// The reply of `compatibility::compatible`; the value is the number of rounds.
impl From<Result<Compatibility, Refusal>> for Reply {
    ghost from_gives = { λ c r. r ≡ fitted c };

    fn from(c: Result<Compatibility, Refusal>) -> Reply {
        match c {
            Ok(c) => bare(0, 0, 0, c.compatible, c.rounds),
            Err(r) => refused(r, 0),
        }
    }
}

// The reply of `composition::compose`; the value is the number of rounds.
impl From<Result<Composition, Refusal>> for Reply {
    ghost from_gives = { λ c r. r ≡ composed c };

    fn from(c: Result<Composition, Refusal>) -> Reply {
        match c {
            Ok(c) => headed(c.compatible, c.rounds, c.header),
            Err(r) => refused(r, 0),
        }
    }
}

// The reply of `refinement::refine`.
impl From<Result<bool, Refusal>> for Reply {
    ghost from_gives = { λ c r. r ≡ refined c };

    fn from(c: Result<bool, Refusal>) -> Reply {
        match c {
            Ok(refines) => bare(0, 0, 0, refines, 0),
            Err(r) => refused(r, 0),
        }
    }
}

// The reply of `synthesis::synthesize`; the value is the number of rounds.
impl From<Result<Synthesis, Refusal>> for Reply {
    ghost from_gives = { λ c r. r ≡ synthesized c };

    fn from(c: Result<Synthesis, Refusal>) -> Reply {
        match c {
            Ok(Synthesis::Controller { header, rounds }) => headed(true, rounds, header),
            Ok(Synthesis::NoController { header, rounds }) => headed(false, rounds, header),
            Err(r) => refused(r, 0),
        }
    }
}

// The reply of `reader::read_alone`.
impl From<Result<Automaton, TextRefusal>> for Reply {
    ghost from_gives = { λ c r. r ≡ alone_read c };

    fn from(c: Result<Automaton, TextRefusal>) -> Reply {
        match c {
            Ok(header) => headed(false, 0, header),
            Err(r) => unread(r),
        }
    }
}

// The reply of `reader::read_together`.
impl From<Result<Tables, TextRefusal>> for Reply {
    ghost from_gives = { λ c r. r ≡ together_read c };

    fn from(c: Result<Tables, TextRefusal>) -> Reply {
        match c {
            Ok(c) => both(c.component, c.specification),
            Err(r) => unread(r),
        }
    }
}

// The reply of `writer::write`; the value is the length of the text.
impl From<Result<usize, Refusal>> for Reply {
    ghost from_gives = { λ c r. r ≡ written c };

    fn from(c: Result<usize, Refusal>) -> Reply {
        match c {
            Ok(length) => bare(0, 0, 0, false, length),
            Err(r) => refused(r, 0),
        }
    }
}
