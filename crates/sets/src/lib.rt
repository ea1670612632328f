// Action sets held in 32 bits, action a in bit a (document 01, "A table"): counted, and visited lowest member first.
#![tactic(auto)]

ghost use Rattle.std.specs.Prelude.{◌≡◌, not, ◌&&◌, cond, ℕ, ◌-◌, ◌^◌, ltb};
ghost use Rattle.std.specs.Int.Bits.{bit_or};
ghost use Rattle.std.specs.Int.Count.{count_leading_zeros, count_trailing_zeros};
ghost use Rattle.theory.specs.Bounded.{any, count};
ghost use Rattle.theory.specs.Sets.{has, difference as without};
ghost use Rattle.theory.specs.Table.{member};
ghost use Rattle.std.specs.Iterator.{at_most};
ghost use Rattle.sets.specs.Steps.{iterator_over, set_left, member_steps};

// Counts the members.
pub fn size(s: u32) -> u32
    ensures { result ≡ count 32 (has s) }
{
    u32::count_ones(s)
}

// Tells whether the action is a member.
pub fn contains(s: u32, action: usize) -> bool
    ensures { result ≡ member s action }
{
    if 32 <= action {
        return false;
    }
    (s >> action as u32) % 2 == 1
}

// Adds the action; an action above 31 changes nothing.
pub fn insert(s: u32, action: usize) -> u32
    ensures { result ≡ cond (ltb action 32) (bit_or s (2 ^ action)) s }
{
    if 32 <= action {
        return s;
    }
    s | (1u32 << action as u32)
}

// Finds the lowest member; 32 if the set is empty.
pub fn lowest(s: u32) -> u32
    ensures { result ≡ count_trailing_zeros 32 s }
{
    u32::trailing_zeros(s)
}

// Returns one more than the highest member; 0 if the set is empty.
pub fn width(s: u32) -> u32
    ensures { result ≡ 32 - count_leading_zeros 32 s }
{
    32 - u32::leading_zeros(s)
}

// Removes the lowest member; the empty set stays empty.
pub fn rest(s: u32) -> u32
    ensures { result ≡ s - 2 ^ count_trailing_zeros 32 s }
{
    if s == 0 {
        return 0;
    }
    s - (1u32 << u32::trailing_zeros(s))
}

// Returns the members of s that are not in t.
pub fn difference(s: u32, t: u32) -> u32
    ensures { result ≡ without s t }
{
    s ^ (s & t)
}

// Tells whether some action is in both sets.
pub fn intersects(s: u32, t: u32) -> bool
    ensures { result ≡ any 32 (λ (a : ℕ). member s a && member t a) }
{
    s & t != 0
}

// Tells whether every member of s is in t.
pub fn is_subset(s: u32, t: u32) -> bool
    ensures { result ≡ not (any 32 (λ (a : ℕ). member s a && not (member t a))) }
{
    s & t == s
}

// The members of a set that are still to come, lowest first.
#[derive(Drop)]
pub struct LowestFirst {
    left: u32,
}

// Gives the members, lowest first.
pub fn members(s: u32) -> LowestFirst
    ensures { result ≡ iterator_over s }
{
    LowestFirst { left: s }
}

impl Iterator for LowestFirst {
    type Item = usize;

    ghost next_gives = { member_steps };

    ghost remaining = { λ s. at_most (set_left s) };

    fn next(&mut self) -> Option<usize> {
        if self.left == 0 {
            return None;
        }
        let action = lowest(self.left) as usize;
        self.left = rest(self.left);
        Some(action)
    }
}
