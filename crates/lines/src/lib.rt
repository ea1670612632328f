// Takes lines of table text apart (document 01, "Table text"): gives the fields of a record, or the rule that it breaks. Compares and cuts parts, and
// knows the name rule.
#![tactic(auto)]

ghost use Rattle.std.specs.Prelude.{◌≡◌, ℕ, ◌+◌, ◌<◌, length, IfSome};
ghost use Rattle.text.specs.Fields.{split, upto};
ghost use Rattle.text.specs.Lines.{role_word, takes_table, takes_declaration, takes_step, table_line, declaration_line, step_line, parse as entry};
ghost use Rattle.lines.specs.Located.{kind_of, three_fields, judgement, placed, located, first_line};

use text::{Place, Role};
use theory::Rule;

mod one_pass;
mod scan;
mod tokens;

pub use scan::{after, before, matches};
pub use tokens::is_name;

// Fields of a line. The name of a step stands in the line from the byte `start` on and before the byte `end`; a declared name from the byte
// `name_start` on, to the end of the line.
#[derive(Clone, Copy)]
pub enum Record {
    Table {
        states: usize,
        initial: usize,
    },
    Declaration(Role),
    Step {
        from: usize,
        start: usize,
        end: usize,
        to: usize,
    },
}

// What a line says, and the length of the line without its LF.
#[derive(Clone, Copy)]
pub struct Line {
    pub record: Record,
    pub length: usize,
}

// Kinds of line.
#[derive(Clone, Copy)]
enum Kind {
    TableLine,
    DeclarationLine(Role),
    StepLine,
}

// Returns the byte of a declaration at which the name begins.
pub fn name_start(role: Role) -> usize
    ensures { result ≡ length (role_word role) + 1 }
{
    match role {
        Role::Input => 3,
        Role::Output => 4,
    }
}

// Tells whether a `table` line may stand at a place.
fn takes_table(place: Place) -> bool
    ensures { result ≡ takes_table place }
{
    matches!(place, Place::Head)
}

// Tells whether an `in` or `out` line may stand at a place.
fn takes_declaration(place: Place) -> bool
    ensures { result ≡ takes_declaration place }
{
    matches!(place, Place::Declarations)
}

// Tells whether a `step` line may stand at a place.
fn takes_step(place: Place) -> bool
    ensures { result ≡ takes_step place }
{
    !matches!(place, Place::Head)
}

// Tells which kind of line begins with this field.
fn kind_of(word: &[u8]) -> Option<Kind>
    ensures { result ≡ kind_of word.now }
{
    if word == b"table".as_slice() {
        return Some(Kind::TableLine);
    }
    if word == b"in".as_slice() {
        return Some(Kind::DeclarationLine(Role::Input));
    }
    if word == b"out".as_slice() {
        return Some(Kind::DeclarationLine(Role::Output));
    }
    (word == b"step".as_slice()).then_some(Kind::StepLine)
}

// Finds the two tabs between exactly three fields.
fn three_fields(s: &[u8]) -> Option<(usize, usize)>
    ensures value { result ≡ three_fields s.now }
    ensures within { IfSome result (λ p. (p.0 < p.1) × (p.1 < length s.now)) }
{
    let first = scan::find(s, b'\t')?;
    let second = first + 1 + scan::find(&s[first + 1..], b'\t')?;
    if s[second + 1..].contains(&b'\t') {
        return None;
    }
    Some((first, second))
}

// Judges the place, the name and the two numbers of a line, in the order of the refusals 15, 16 and 17.
fn judge(in_place: bool, name: &[u8], x: &[u8], y: &[u8]) -> Result<(usize, usize), Rule>
    ensures { result ≡ judgement in_place name.now x.now y.now }
{
    if !in_place {
        return Err(Rule::LineOrder);
    }
    if !tokens::is_name(name) {
        return Err(Rule::NameForm);
    }
    let (Some(a), Some(b)) = (tokens::number(x), tokens::number(y)) else {
        return Err(Rule::NumberForm);
    };
    Ok((a, b))
}

// Takes apart what follows the kind of a `table` line.
fn table_line(rest: &[u8], place: Place) -> Result<Record, Rule>
    ensures { (at : ℕ) → result ≡ placed at (table_line place (split 9 rest.now)) }
{
    let Some((first, second)) = three_fields(rest) else {
        return Err(Rule::LineForm);
    };
    let (states, initial) = judge(
        takes_table(place),
        &rest[..first],
        &rest[first + 1..second],
        &rest[second + 1..],
    )?;
    Ok(Record::Table { states, initial })
}

// Takes apart what follows the kind of an `in` or `out` line.
fn declaration_line(rest: &[u8], role: Role, place: Place) -> Result<Record, Rule>
    ensures { (at : ℕ) → result ≡ placed at (declaration_line role place (split 9 rest.now)) }
{
    if rest.contains(&b'\t') {
        return Err(Rule::LineForm);
    }
    if !takes_declaration(place) {
        return Err(Rule::LineOrder);
    }
    if !tokens::is_name(rest) {
        return Err(Rule::NameForm);
    }
    Ok(Record::Declaration(role))
}

// Takes apart what follows the kind of a `step` line and begins at its byte `at`.
fn step_line(rest: &[u8], at: usize, place: Place) -> Result<Record, Rule>
    requires { at + length rest.now < 18446744073709551616 }
    ensures { result ≡ placed (at + upto 9 rest.now + 1) (step_line place (split 9 rest.now)) }
{
    let Some((first, second)) = three_fields(rest) else {
        return Err(Rule::LineForm);
    };
    let name = &rest[first + 1..second];
    let (from, to) = judge(takes_step(place), name, &rest[..first], &rest[second + 1..])?;
    Ok(Record::Step {
        from,
        start: at + first + 1,
        end: at + second,
        to,
    })
}

// Takes apart a line that is given without its LF.
fn parse_line(line: &[u8], place: Place) -> Result<Record, Rule>
    ensures { result ≡ located line.now (entry place line.now) }
{
    let Some(tab) = scan::find(line, b'\t') else {
        return Err(Rule::LineForm);
    };
    let rest = &line[tab + 1..];
    match kind_of(&line[..tab]) {
        Some(Kind::TableLine) => table_line(rest, place),
        Some(Kind::DeclarationLine(role)) => declaration_line(rest, role, place),
        Some(Kind::StepLine) => step_line(rest, tab + 1, place),
        None => Err(Rule::LineForm),
    }
}

// Takes apart the first line of s, of whatever kind: looks for its LF first, then for its fields. Not inlined: its code within `parse` would take registers
// from the loops around it.
#[inline(never)]
fn parse_any(s: &[u8], place: Place) -> Result<Line, Rule>
    ensures { result ≡ first_line place s.now }
{
    let Some(length) = scan::find(s, b'\n') else {
        return Err(Rule::LineForm);
    };
    let record = parse_line(&s[..length], place)?;
    Ok(Line { record, length })
}

// Takes apart the first line of s, by the kinds that may stand at `place`, or returns the rule that it breaks: 14 if it lacks its LF. Where a step
// may stand, most lines are steps without a fault, and these are taken apart in one pass.
pub fn parse(s: &[u8], place: Place) -> Result<Line, Rule>
    ensures { result ≡ first_line place s.now }
{
    if takes_step(place) {
        if let Some(line) = one_pass::step_line(s) {
            return Ok(line);
        }
    }
    parse_any(s, place)
}
