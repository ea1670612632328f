// Finds bytes in table text, compares parts of it and cuts them out (document 01, "Table text"). The contracts of the parts that other
// crates ask for give their bytes and their places in memory, of an empty part too.
ghost use Rattle.std.specs.Prelude.{◌≡◌, ◌==◌, eqb, take, drop};
ghost use Rattle.std.specs.List.{position};
ghost use Rattle.text.specs.Fields.{spelled, matches};
ghost use Rattle.lines.specs.Places.{place_in};
ghost use Rattle.lines.specs.CaseBit.{case_bit};

use text::Spelling;

// Returns the place of the first b.
pub fn find(s: &[u8], b: u8) -> Option<usize>
    ensures { result ≡ position (λ x. x == b) s.now }
{
    s.iter().position(|&x| x == b)
}

// Returns the bit in which capital and small letters differ if the spelling folds them, else 0. Two bytes that differ even with this bit set in
// both do not match.
fn case_bit(spelling: Spelling) -> u8
    ensures { result ≡ case_bit spelling }
{
    match spelling {
        Spelling::Exact => 0,
        Spelling::Folded => 32,
    }
}

// Spells a byte: where letters are folded, a capital letter is its small one. No test in it hangs on the spelling, so that a loop over bytes stays one loop.
fn spell(spelling: Spelling, x: u8) -> u8
    ensures { result ≡ spelled spelling x }
{
    match x {
        b'A'..=b'Z' => x + case_bit(spelling),
        _ => x,
    }
}

// Tells whether two bytes are the same in a spelling. Most pairs differ, and the first test is the shorter one.
fn agree(spelling: Spelling, x: u8, y: u8) -> bool
    ensures { result ≡ eqb (spelled spelling x) (spelled spelling y) }
{
    let bit = case_bit(spelling);
    x | bit == y | bit && spell(spelling, x) == spell(spelling, y)
}

// Tells whether a and b are equal in this spelling. Compares from the last byte on: names in one text are often alike but for their ends.
pub fn matches(spelling: Spelling, a: &[u8], b: &[u8]) -> bool
    ensures { result ≡ matches spelling a.now b.now }
{
    if a.len() != b.len() {
        return false;
    }
    for i in (0..a.len()).rev() {
        if !agree(spelling, a[i], b[i]) {
            return false;
        }
    }
    true
}

// Returns the part before the byte `at`; all of s if s is shorter.
pub fn before<'a>(s: &'a [u8], at: usize) -> &'a [u8]
    ensures result_value { result.now ≡ take at s.now }
    ensures ref_ptr_value { result.ref_ptr ≡ s.entry.ref_ptr }
{
    &s[..at.min(s.len())]
}

// Returns the part from the byte `at` on; the empty part at the end of s if s is shorter.
pub fn after<'a>(s: &'a [u8], at: usize) -> &'a [u8]
    ensures result_value { result.now ≡ drop at s.now }
    ensures ref_ptr_value { result.ref_ptr ≡ place_in s.entry.ref_ptr s.now at }
{
    &s[at.min(s.len())..]
}
