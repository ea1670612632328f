// State of a reading between two lines, but for the lent cells; and the states in which the readings of two texts end.
use names::Names;
use text::Place;
use theory::Automaton;

// What has been read, but for the lent cells: the place of the next line, the header of the automaton, and the signals so far.
#[derive(Clone, Copy)]
pub struct State {
    pub place: Place,
    pub header: Automaton,
    pub signals: Names,
}

// The states at the ends of two texts.
#[derive(Clone, Copy)]
pub struct States {
    pub first: State,
    pub second: State,
}
