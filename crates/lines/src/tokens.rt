// Scans names and numbers (document 01, "Table text"): those that a text begins with, and fields that are nothing else.
ghost use Rattle.std.specs.Prelude.{◌≡◌};
ghost use Rattle.text.specs.Fields.{name_byte, name_ok, number as number_of};
ghost use Rattle.lines.specs.Leading.{name_width, leading_number, Digits};

// The number that a text begins with, and how many digits it has.
#[derive(Clone, Copy)]
pub struct Leading {
    pub value: usize,
    pub width: usize,
}

// Tells whether a byte may stand in a name: an ASCII letter, a digit or an underscore. Small letters, the most frequent, take two tests. It is written out
// for speed: with `is_ascii_alphanumeric` a step line takes 3 to 20 in a hundred more time, and of a `match` the compiler makes one long test.
fn is_name_byte(x: u8) -> bool
    ensures { result ≡ name_byte x }
{
    if b'a' <= x {
        return x <= b'z';
    }
    if x <= b'9' {
        return b'0' <= x;
    }
    if x <= b'Z' {
        return b'A' <= x;
    }
    x == b'_'
}

// Counts the bytes of the name that s begins with: all bytes before the first that may not stand in a name, if they are 1 to 16. Looks at 17 bytes at
// most. It counts by an index for speed: with `position` or `take_while` a step line takes 4 to 12 in a hundred more time.
pub fn name_width(s: &[u8]) -> Option<usize>
    ensures { result ≡ name_width s.now }
{
    let end = s.len().min(17);
    for i in 0..end {
        if !is_name_byte(s[i]) {
            return (0 < i).then_some(i);
        }
    }
    (1..=16).contains(&end).then_some(end)
}

// Tells whether s keeps the name rule: 1 to 16 bytes, each of which may stand in a name.
pub fn is_name(s: &[u8]) -> bool
    ensures { result ≡ name_ok s.now }
{
    name_width(s) == Some(s.len())
}

// Judges the digits that s begins with by how many they are and by a leading zero.
fn by_width(s: &[u8], value: usize, width: usize) -> Option<Leading>
    requires { Digits s.now value width }
    ensures { result ≡ leading_number s.now }
{
    match width {
        1 => Some(Leading { value, width }),
        2..=5 if s[0] != b'0' => Some(Leading { value, width }),
        _ => None,
    }
}

// Reads the number that s begins with: all digits before the first other byte, if they keep the number rule. Looks no further once the value is too
// large.
pub fn leading_number(s: &[u8]) -> Option<Leading>
    ensures { result ≡ leading_number s.now }
{
    let mut value: usize = 0;
    for (i, &x) in s.iter().enumerate() {
        if !x.is_ascii_digit() {
            return by_width(s, value, i);
        }
        value = value * 10 + usize::from(x - b'0');
        if 65535 < value {
            return None;
        }
    }
    by_width(s, value, s.len())
}

// Reads a decimal number that keeps the number rule.
pub fn number(s: &[u8]) -> Option<usize>
    ensures { result ≡ number_of s.now }
{
    let Leading { value, width } = leading_number(s)?;
    (width == s.len()).then_some(value)
}
