// Numbers names as they are declared: makes the entry of a name, adds it to a table of names, and finds a name's number there.
ghost use Rattle.std.specs.Prelude.{◌≡◌, ◌&&◌, [], ◌+◌, ◌*◌, ◌%◌, ◌<◌, eqb, length};
ghost use Rattle.lines.specs.Places.{place_in};
ghost use Rattle.text.specs.Fields.{matches};
ghost use Rattle.text.specs.Reading.{text_of};
ghost use Rattle.names.specs.NamePlaces.{text_in, name_at};
ghost use Rattle.names.specs.Numbering.{from_end, key as key_of, unused as noName, entry_at, entries_of, first_place, is_of, table_of, with_entry};

use crate::{Name, Names};
use text::Spelling;

// Returns the entry that is not used.
fn unused() -> Name
    ensures { result ≡ noName }
{
    Name {
        place: 0,
        key: 0,
        from: 0,
    }
}

// Returns the table in which no name has a number yet.
pub fn none() -> Names
    ensures { result ≡ table_of [] }
{
    let free = unused();
    Names {
        entries: [free; 32],
        count: 0,
    }
}

// Returns the k-th byte from the end of s, the last one for 1; 0 if s is shorter.
#[tactic(auto, unfolding(crate::specs::Numbering::from_end))]
fn from_end(s: &[u8], k: usize) -> u8
    requires { 0 < k }
    ensures { result ≡ from_end k s.now }
{
    if s.len() < k {
        return 0;
    }
    s[s.len() - k]
}

// Returns the key of a name, of the last bits of its last two bytes, which the case of a letter does not change.
#[tactic(auto, unfolding(crate::specs::Numbering::key))]
fn key(name: &[u8]) -> u8
    ensures { result ≡ key_of name.now }
{
    from_end(name, 1) % 32 + from_end(name, 2) % 8 * 32
}

// Makes the entry of a name that stands in the text with this number from the byte `from` on. Of a number that is too large for an entry, the lowest
// bits are kept.
pub fn entry(text: u8, from: usize, name: &[u8]) -> Name
    ensures { result ≡ record { place = text % 4 + length name.now % 64 * 4; key = key_of name.now; from = from % 65536 } }
{
    Name {
        place: text % 4 + (name.len() % 64) as u8 * 4,
        key: key(name),
        from: (from % 65536) as u16,
    }
}

// Tells whether an entry has this key, and its name equals `wanted` in this spelling.
fn is_of<'a>(
    m: &'a [u8],
    p: &'a [u8],
    spelling: Spelling,
    entry: Name,
    wanted: &[u8],
    key: u8,
) -> bool
    ensures { result ≡ (eqb entry.key key && matches spelling (name_at m.now p.now entry) wanted.now) }
{
    if entry.key != key {
        return false;
    }
    lines::matches(spelling, crate::bytes_of(m, p, entry), wanted)
}

// Finds the first name that equals `wanted` in this spelling: returns its number, or the next free number if there is none. An entry whose key is not
// that of its name is passed over.
pub fn find<'a>(m: &'a [u8], p: &'a [u8], spelling: Spelling, names: Names, wanted: &[u8]) -> usize
    ensures { result ≡ first_place (is_of m.now p.now spelling wanted.now) (entries_of names) }
{
    let key = key(wanted);
    let entries = names.entries;
    let used = names.count.min(32);
    for i in 0..used {
        if is_of(m, p, spelling, entries[i], wanted, key) {
            return i;
        }
    }
    used
}

// Returns the entry of a number; the one that is not used if there are not so many.
fn entry_at(names: Names, number: usize) -> Name
    ensures { result ≡ entry_at names number }
{
    names.entries.get(number).copied().unwrap_or(unused())
}

// Returns the name with this number as the part of its text where it stands; an empty part if no name has the number.
pub fn part<'a>(m: &'a [u8], p: &'a [u8], names: Names, number: usize) -> &'a [u8]
    ensures result_value { result.now ≡ name_at m.now p.now (entry_at names number) }
    ensures ref_ptr_value { result.ref_ptr ≡ place_in (text_of m.entry.ref_ptr p.entry.ref_ptr (text_in (entry_at names number))) (text_of m.now p.now (text_in (entry_at names number))) (entry_at names number).from }
{
    crate::bytes_of(m, p, entry_at(names, number))
}

// Adds an entry under the next free number; changes nothing if `number` belongs to a name already, or if the table is full.
#[tactic(auto, unfolding(crate::specs::Numbering::with_entry))]
pub fn add(names: Names, entry: Name, number: usize) -> Names
    ensures { result ≡ with_entry names entry number }
{
    let count = names.count;
    if number < count || 32 <= count {
        return names;
    }
    let mut entries = names.entries;
    entries[count] = entry;
    Names {
        entries,
        count: count + 1,
    }
}
