// Takes apart a step line that keeps every rule, in one pass over its bytes: nearly all lines of a text are such. Any other line is left to the
// functions that know the order of the refusals.
ghost use Rattle.std.specs.Prelude.{◌≡◌};
ghost use Rattle.lines.specs.OnePass.{is_at, step_read};

use crate::tokens::Leading;
use crate::{Line, Record, tokens};

// Tells whether s has the byte b at `at`. It is a function since the compiler keeps the loops of `step_line` in registers then.
fn is_at(s: &[u8], at: usize, b: u8) -> bool
    ensures { result ≡ is_at s.now at b }
{
    at < s.len() && s[at] == b
}

// Takes apart the step line at the start of s, if there is one that keeps every rule.
pub fn step_line(s: &[u8]) -> Option<Line>
    ensures { step_read s.now result }
{
    let fields = s.strip_prefix(b"step\t")?;
    let Leading {
        value: from,
        width: first,
    } = tokens::leading_number(fields)?;
    if !is_at(fields, first, b'\t') {
        return None;
    }
    let named = &fields[first + 1..];
    let second = tokens::name_width(named)?;
    if !is_at(named, second, b'\t') {
        return None;
    }
    let last = &named[second + 1..];
    let Leading {
        value: to,
        width: third,
    } = tokens::leading_number(last)?;
    if !is_at(last, third, b'\n') {
        return None;
    }
    let start = first + 6;
    let end = start + second;
    Some(Line {
        record: Record::Step {
            from,
            start,
            end,
            to,
        },
        length: end + 1 + third,
    })
}
