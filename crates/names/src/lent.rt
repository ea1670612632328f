// Checks of the writer on the names that it is lent: 16 and 18 (document 01), 28 (document 02, S-9). `names` has one for each action number; a
// missing entry is an empty name.
ghost use Rattle.std.specs.Prelude.{◌≡◌, not, ℕ};
ghost use Rattle.theory.specs.Checks.{first};
ghost use Rattle.text.specs.Fields.{matches, name_ok};
ghost use Rattle.text.specs.Writing.{name_of};
ghost use Rattle.names.specs.LentNames.{texts, any_of, repeated, Named, name_checks};

use text::Spelling;
use theory::{Automaton, Refusal, Rule};

// Tells whether the name of some signal breaks the name rule.
fn is_misnamed(signals: u32, names: &[&[u8]]) -> bool
    ensures { result ≡ any_of signals (λ (a : ℕ). not (name_ok (name_of (texts names.now) a))) }
{
    for s in sets::members(signals) {
        if names.len() <= s {
            return true;
        }
        if !lines::is_name(names[s]) {
            return true;
        }
    }
    false
}

// Tells whether the name of some signal matches the given one in a spelling.
fn is_taken(spelling: Spelling, signals: u32, names: &[&[u8]], name: &[u8]) -> bool
    requires { Named signals (texts names.now) }
    ensures { result ≡ any_of signals (λ (a : ℕ). matches spelling (name_of (texts names.now) a) name.now) }
{
    for s in sets::members(signals) {
        if lines::matches(spelling, names[s], name) {
            return true;
        }
    }
    false
}

// Tells whether the names of two signals match in a spelling: compares each with those of higher number.
fn is_repeated(spelling: Spelling, signals: u32, names: &[&[u8]]) -> bool
    requires { Named signals (texts names.now) }
    ensures { result ≡ repeated spelling signals (texts names.now) }
{
    let mut left = signals;
    for s in sets::members(signals) {
        left = sets::rest(left);
        if is_taken(spelling, left, names, names[s]) {
            return true;
        }
    }
    false
}

// Checks the name of the table and those of the declared signals (16), whether two signals have equal names (18), then whether two names clash
// (28). Equal names match in every spelling, so that names which pass are compared with each other once.
pub fn check(a: Automaton, name: &[u8], names: &[&[u8]]) -> Result<(), Refusal>
    ensures { result ≡ first (name_checks a name.now (texts names.now)) }
{
    if !lines::is_name(name) {
        return Err(table::refusal(Rule::NameForm, 0));
    }
    let signals = table::declared(a);
    if is_misnamed(signals, names) {
        return Err(table::refusal(Rule::NameForm, 0));
    }
    if is_repeated(Spelling::Folded, signals, names) {
        if is_repeated(Spelling::Exact, signals, names) {
            return Err(table::refusal(Rule::DeclaredTwice, 0));
        }
        return Err(table::refusal(Rule::NameClash, 0));
    }
    Ok(())
}
