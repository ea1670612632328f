// The types of table text that its definitions and the calls on it share. There is no code here.
#![tactic(auto)]

use theory::Rule;

// Where a line of a text stands: the `table` line comes first, then declarations, then steps.
#[derive(Clone, Copy)]
pub enum Place {
    Head,
    Declarations,
    Steps,
}

// Role that a declaration gives to a signal.
#[derive(Clone, Copy)]
pub enum Role {
    Input,
    Output,
}

// How names are compared: byte by byte, document 01's rule, which the archive reading keeps; or with A to Z taken for a to z (document 02, S-9).
#[derive(Clone, Copy)]
pub enum Spelling {
    Exact,
    Folded,
}

// Why a text is refused: the rule that it breaks, the text at fault (1 the first, 2 the second), and the line at fault, from 1; 0 for the rules 13
// and 22, which concern the whole text. A report tells of what is refused after the reading in the same form: the table, 0 for neither, and line 0.
#[derive(Clone, Copy)]
pub struct TextRefusal {
    pub rule: Rule,
    pub text: u32,
    pub line: usize,
}

// Where a name is first declared: the text (1 the first, 2 the second) and the line in it, from 1.
#[derive(Clone, Copy)]
pub struct Declaration {
    pub text: u32,
    pub line: usize,
}

// Two names that differ only in the case of letters: the later one, and the first one that it clashes with (document 02, S-9).
#[derive(Clone, Copy)]
pub struct Clash {
    pub later: Declaration,
    pub first: Declaration,
}
