// Hands back a text by its number, and a name as the part of its text where it stands. The two texts go as m and p here and above, as in the calls that
// lend them: a struct of both would be plainer in no contract, since the place of a part is said of each lent text.
ghost use Rattle.std.specs.Prelude.{◌≡◌};
ghost use Rattle.lines.specs.Places.{place_in};
ghost use Rattle.text.specs.Reading.{text_of};
ghost use Rattle.names.specs.NamePlaces.{text_in, length_in, name_at};

use crate::Name;

// Returns the text with this number: 2 is the second text, any other number the first.
pub fn text_of<'a>(m: &'a [u8], p: &'a [u8], text: u32) -> &'a [u8]
    ensures result_value { result.now ≡ text_of m.now p.now text }
    ensures ref_ptr_value { result.ref_ptr ≡ text_of m.entry.ref_ptr p.entry.ref_ptr text }
{
    if text == 2 { p } else { m }
}

// Returns the number of the text that a name stands in.
pub fn text_in(name: Name) -> u32
    ensures { result ≡ text_in name }
{
    u32::from(name.place % 4)
}

// Returns the length of a name.
fn length_in(name: Name) -> usize
    ensures { result ≡ length_in name }
{
    usize::from(name.place / 4)
}

// Returns a name as the part of its text where it stands, as far as the text reaches.
pub fn bytes_of<'a>(m: &'a [u8], p: &'a [u8], name: Name) -> &'a [u8]
    ensures result_value { result.now ≡ name_at m.now p.now name }
    ensures ref_ptr_value { result.ref_ptr ≡ place_in (text_of m.entry.ref_ptr p.entry.ref_ptr (text_in name)) (text_of m.now p.now (text_in name)) name.from }
{
    let from = lines::after(text_of(m, p, text_in(name)), usize::from(name.from));
    lines::before(from, length_in(name))
}
