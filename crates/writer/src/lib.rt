// Writes the text of a table (document 01, "Table text").
#![tactic(auto)]

ghost use Rattle.std.specs.Prelude.{◌≡◌, ◌≤◌, length};
ghost use Rattle.theory.specs.Table.{declared_set, table};
ghost use Rattle.theory.specs.Valid.{Valid};
ghost use Rattle.theory.specs.Checks.{first};
ghost use Rattle.text.specs.Writing.{text_length, writer_bytes};
ghost use Rattle.names.specs.LentNames.{texts, Named};
ghost use Rattle.writer.specs.Contract.{checks_before, print_reply, print_bytes, writer_reply};

use theory::{Automaton, Refusal, Rule};

mod rows;

// Runs all checks but 23, which the length of the text decides.
fn check(a: Automaton, cells: &[u16], name: &[u8], names: &[&[u8]]) -> Result<(), Refusal>
    ensures { result ≡ first (checks_before (table a cells.now) name.now (texts names.now)) }
{
    table::judge(a, cells)?;
    names::check(a, name, names)
}

// Measures the text by putting it into a buffer of one byte: the place is counted on past its end.
#[tactic(auto, unfolding(text::specs::Writing::text_length))]
fn measure(a: Automaton, cells: &[u16], name: &[u8], names: &[&[u8]]) -> usize
    requires valid { Valid (table a cells.now) }
    requires named { Named (declared_set a) (texts names.now) }
    requires name_len_bound { length name.now ≤ 16 }
    ensures { result ≡ text_length (table a cells.now) name.now (texts names.now) }
{
    let mut scratch = [0u8; 1];
    rows::text(&mut scratch, a, cells, name, names)
}

// Runs check 23 and writes the text.
fn print(
    out: &mut [u8],
    a: Automaton,
    cells: &[u16],
    name: &[u8],
    names: &[&[u8]],
) -> Result<usize, Refusal>
    requires valid { Valid (table a cells.now) }
    requires named { Named (declared_set a) (texts names.now) }
    requires name_len_bound { length name.now ≤ 16 }
    ensures value { result ≡ print_reply (table a cells.now) name.now (texts names.now) (length out.old) }
    ensures out_after { out.new ≡ print_bytes (table a cells.now) name.now (texts names.now) out.old }
{
    let n = measure(a, cells, name, names);
    let room = out.len().min(65536);
    if room < n {
        return Err(table::refusal(Rule::TextRoom, 0));
    }
    rows::text(out, a, cells, name, names);
    Ok(n)
}

// Writes the text of a table, with its name and, from `names`, a name for each declared signal by its number; returns its length. Declares signals by
// number, and puts steps by state, then by signal number; bytes past the text stay. Runs checks 1 to 6, 16, 18, 28, 23; a refusal leaves the buffer
// as it was.
pub fn write(
    a: Automaton,
    cells: &[u16],
    name: &[u8],
    names: &[&[u8]],
    out: &mut [u8],
) -> Result<usize, Refusal>
    ensures value { result ≡ writer_reply (table a cells.now) name.now (texts names.now) (length out.old) }
    ensures out_after { out.new ≡ writer_bytes (table a cells.now) name.now (texts names.now) out.old }
{
    check(a, cells, name, names)?;
    print(out, a, cells, name, names)
}
