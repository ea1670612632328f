// Makes the records that C is given: the library's replies, in plain numbers. C has no Option and no Result, so each has a number of 0 where nothing is
// refused, and a flag beside what may be missing.
ghost use Rattle.std.specs.Prelude.{◌≡◌};
ghost use Rattle.moqresam.specs.Contract.{fit_with, refine_with, follow_with, fit_reply, refine_reply, monitor_reply};

use crate::{FitReply, FollowReply, RefineReply};
use compatibility::Compatibility;
use table::Status;
use theory::Refusal;

// Makes a reply of fit; the status says whether it is refused, and where.
fn fit_with(s: Status, compatible: bool, rounds: usize) -> FitReply
    ensures { result ≡ fit_with s compatible rounds }
{
    FitReply {
        number: s.number,
        table: s.table,
        compatible,
        rounds,
        placed: s.placed,
        cell_state: s.state,
        cell_signal: s.action,
    }
}

// Makes a reply of refinement; the status says whether it is refused, and where.
fn refine_with(s: Status, refines: bool) -> RefineReply
    ensures { result ≡ refine_with s refines }
{
    RefineReply {
        number: s.number,
        table: s.table,
        refines,
        placed: s.placed,
        cell_state: s.state,
        cell_signal: s.action,
    }
}

// Makes a reply of the follower; the status says whether it is refused, and where.
fn follow_with(s: Status, moved: bool, state: usize) -> FollowReply
    ensures { result ≡ follow_with s moved state }
{
    FollowReply {
        number: s.number,
        table: s.table,
        moved,
        state,
        placed: s.placed,
        cell_state: s.state,
        cell_signal: s.action,
    }
}

impl From<Result<Compatibility, Refusal>> for FitReply {
    ghost from_gives = { λ c x. x ≡ fit_reply c };

    fn from(c: Result<Compatibility, Refusal>) -> FitReply {
        match c {
            Ok(c) => fit_with(table::accepted(), c.compatible, c.rounds),
            Err(r) => fit_with(r.into(), false, 0),
        }
    }
}

impl From<Result<bool, Refusal>> for RefineReply {
    ghost from_gives = { λ c x. x ≡ refine_reply c };

    fn from(c: Result<bool, Refusal>) -> RefineReply {
        match c {
            Ok(refines) => refine_with(table::accepted(), refines),
            Err(r) => refine_with(r.into(), false),
        }
    }
}

// Turns the library's reply of the follower at `state` into the one for C.
pub fn follow_reply(state: usize, f: Result<Option<usize>, Refusal>) -> FollowReply
    ensures { result ≡ monitor_reply state f }
{
    match f {
        Ok(Some(to)) => follow_with(table::accepted(), true, to),
        Ok(None) => follow_with(table::accepted(), false, state),
        Err(r) => follow_with(r.into(), false, state),
    }
}
