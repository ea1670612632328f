// Names of signals in lent texts: where a name stands, which number it has among those declared so far, and the checks on the names that the writer is
// lent (document 01, "Table text").
#![tactic(auto)]

mod lent;
mod numbering;
mod places;

pub use lent::check;
pub use numbering::{add, entry, find, none, part};
pub use places::{bytes_of, text_in, text_of};

// A name by its place in one of two texts: `place` is the number of its text and four times its length; 2 is the second text, any other number the
// first. `key` is a number of its last two bytes, by which most names are told apart without a look at the texts. It takes only 4 bytes, since a reading
// hands all its names on with every line: a text that is read has at most 65,536 bytes, and a name 16.
#[derive(Clone, Copy)]
pub struct Name {
    pub place: u8,
    pub key: u8,
    pub from: u16,
}

// Table of the names that have a number, by number: the first `count` entries; the others are not used. It is an array with a count, since nothing is
// allocated.
#[derive(Clone, Copy)]
pub struct Names {
    pub entries: [Name; 32],
    pub count: usize,
}
