// Puts parts, numbers and lines of table text (document 01, "Table text") into a buffer, from a place on. Each call returns the place after what it
// put. Text that does not fit is cut off at the end of the buffer, and the place returned is then one past that end: so no call has to ask whether
// those before it had room.
#![tactic(auto)]

ghost use Rattle.std.specs.Prelude.{◌≡◌, [], ◌∷◌, ◌++◌, ◌+◌, ◌%◌, ◌≤◌, ◌<◌, leb, length};
ghost use Rattle.text.specs.Lines.{role_word};
ghost use Rattle.text.specs.Writing.{decimal};
ghost use Rattle.emit.specs.Buffer.{after, stored};
ghost use Rattle.emit.specs.Rows.{table_text, signal_text, step_text};

use text::Role;

// Copies the bytes of s, for which there is room. A loop, since `copy_from_slice` would need `memmove` from outside.
fn copy(d: &mut [u8], at: usize, s: &[u8])
    requires { at + length s.now ≤ length d.old }
    ensures { d.new ≡ stored d.old at s.now }
{
    for i in 0..s.len() {
        d[at + i] = s[i];
    }
}

// Puts the bytes of s.
pub fn put(d: &mut [u8], at: usize, s: &[u8]) -> usize
    ensures value { result ≡ after (length d.old) at s.now }
    ensures d_after { d.new ≡ stored d.old at s.now }
{
    if d.len() < at {
        return at;
    }
    let room = d.len() - at;
    if room < s.len() {
        copy(d, at, &s[..room]);
        return d.len() + 1;
    }
    copy(d, at, s);
    at + s.len()
}

// Puts a field and the byte that ends it: a tab, or the LF of the line.
pub fn field(d: &mut [u8], at: usize, s: &[u8], end: u8) -> usize
    ensures value { result ≡ after (length d.old) at (s.now ++ end ∷ []) }
    ensures d_after { d.new ≡ stored d.old at (s.now ++ end ∷ []) }
{
    let i = put(d, at, s);
    put(d, i, &[end])
}

// Gives the last digit of a number, as a byte.
fn digit(n: usize) -> u8
    ensures { result ≡ 48 + n % 10 }
{
    b'0' + (n % 10) as u8
}

// Counts the digits that `number` puts: five at most.
pub fn width(n: usize) -> usize
    ensures { result ≡ length (decimal n) }
{
    match n {
        0..=9 => 1,
        10..=99 => 2,
        100..=999 => 3,
        1000..=9999 => 4,
        _ => 5,
    }
}

// Writes the digits of a number into as many bytes, last digit first.
fn digits(d: &mut [u8], n: usize)
    requires { length d.old ≡ length (decimal n) }
    ensures { d.new ≡ decimal n }
{
    let mut left = n;
    for i in (0..d.len()).rev() {
        d[i] = digit(left);
        left /= 10;
    }
}

// Puts a decimal number as a field, and the byte that ends it. From 100,000 on a number keeps its last five digits only.
pub fn number(d: &mut [u8], at: usize, n: usize, end: u8) -> usize
    ensures value { result ≡ after (length d.old) at (decimal n ++ end ∷ []) }
    ensures d_after { d.new ≡ stored d.old at (decimal n ++ end ∷ []) }
{
    let mut five = [0u8; 5];
    let w = width(n);
    digits(&mut five[..w], n);
    field(d, at, &five[..w], end)
}

// Puts the `table` line.
pub fn table_line(d: &mut [u8], at: usize, name: &[u8], states: usize, initial: usize) -> usize
    ensures value { result ≡ after (length d.old) at (table_text name.now states initial) }
    ensures d_after { d.new ≡ stored d.old at (table_text name.now states initial) }
{
    let i = field(d, at, b"table", b'\t');
    let j = field(d, i, name, b'\t');
    let k = number(d, j, states, b'\t');
    number(d, k, initial, b'\n')
}

// Gives the word of a role.
fn role_word(role: Role) -> &'static [u8]
    ensures { result.now ≡ role_word role }
{
    match role {
        Role::Input => b"in",
        Role::Output => b"out",
    }
}

// Counts the bytes of a role's word.
pub fn role_width(role: Role) -> usize
    ensures { result ≡ length (role_word role) }
{
    role_word(role).len()
}

// Puts the line that declares a signal in a role.
pub fn signal_line(d: &mut [u8], at: usize, role: Role, name: &[u8]) -> usize
    ensures value { result ≡ after (length d.old) at (signal_text role name.now) }
    ensures d_after { d.new ≡ stored d.old at (signal_text role name.now) }
{
    if d.len() < at {
        return at;
    }
    let i = field(d, at, role_word(role), b'\t');
    field(d, i, name, b'\n')
}

// Puts a field for which there is room, and the byte that ends it.
fn field_within(d: &mut [u8], at: usize, s: &[u8], end: u8) -> usize
    requires { at + length s.now < length d.old }
    ensures value { result ≡ at + length s.now + 1 }
    ensures d_after { d.new ≡ stored d.old at (s.now ++ end ∷ []) }
{
    copy(d, at, s);
    let i = at + s.len();
    d[i] = end;
    i + 1
}

// Puts a number for which there is room, as a field with the byte that ends it.
fn number_within(d: &mut [u8], at: usize, n: usize, end: u8) -> usize
    requires { at + 6 ≤ length d.old }
    ensures value { result ≡ at + length (decimal n) + 1 }
    ensures d_after { d.new ≡ stored d.old at (decimal n ++ end ∷ []) }
{
    let i = at + width(n);
    digits(&mut d[at..i], n);
    d[i] = end;
    i + 1
}

// Puts the line of a step for which there is room.
fn step_within(d: &mut [u8], at: usize, from: usize, name: &[u8], to: usize) -> usize
    requires { at + length name.now + 18 ≤ length d.old }
    ensures value { result ≡ after (length d.old) at (step_text from name.now to) }
    ensures d_after { d.new ≡ stored d.old at (step_text from name.now to) }
{
    let i = field_within(d, at, b"step", b'\t');
    let j = number_within(d, i, from, b'\t');
    let k = field_within(d, j, name, b'\t');
    number_within(d, k, to, b'\n')
}

// Tells whether a buffer of so many bytes has room, from the place `at` on, for the line of a step: its name and at most 18 other bytes.
fn has_room(bytes: usize, at: usize, name: usize) -> bool
    ensures { result ≡ leb (at + name + 18) bytes }
{
    at <= bytes && 18 <= bytes - at && name <= bytes - at - 18
}

// Puts the line of a step. Nearly all lines of a text are steps, so it asks for room once and not field by field, and stops at once past the end.
pub fn step_line(d: &mut [u8], at: usize, from: usize, name: &[u8], to: usize) -> usize
    ensures value { result ≡ after (length d.old) at (step_text from name.now to) }
    ensures d_after { d.new ≡ stored d.old at (step_text from name.now to) }
{
    if has_room(d.len(), at, name.len()) {
        return step_within(d, at, from, name, to);
    }
    if d.len() < at {
        return at;
    }
    let i = field(d, at, b"step", b'\t');
    let j = number(d, i, from, b'\t');
    let k = field(d, j, name, b'\t');
    number(d, k, to, b'\n')
}
