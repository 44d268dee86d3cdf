//! What stands at a byte.

ghost use Rattle.std.specs.Prelude.{◌≡◌, ◌==◌, IfOk, length, if◌then◌else◌};
ghost use Rattle.wf_model.specs.Lines.{is_blank, begins_with};
ghost use Rattle.wf_model.specs.NamelistTokens.{is_gap, line_begins, in_group};
ghost use Rattle.wf_namelist.specs.Scanning.{HasRoom, line_ends, passes, turn_at, turn_of};
ghost use Rattle.wf_namelist.specs.Scanning.{where_of};

use crate::place::Place;
use crate::token::{Begun, begin_token, group_token};
use std::alloc::{AllocError, Global};

/// What a byte is that belongs to no token before.
#[derive(Drop)]
pub(crate) enum Step {
    /// A line feed, and where scanning goes on.
    LineEnds(Place),
    /// A byte of no token, and where scanning goes on.
    Passes(Place),
    Begins(Begun),
}

fn is_blank(b: u8) -> bool
    ensures { result ≡ is_blank b }
{
    b == b' ' || b == b'\t'
}

fn begins_with_line_feed(bytes: &[u8]) -> bool
    ensures { result ≡ begins_with 10 bytes.now }
{
    match bytes.first() {
        Some(first) => *first == b'\n',
        None => false,
    }
}

/// A blank, or a carriage return just before a line feed.
fn is_gap(b: u8, after: &[u8]) -> bool
    ensures { result ≡ is_gap b after.now }
{
    is_blank(b) || (b == b'\r' && begins_with_line_feed(after))
}

/// Where only blanks stand before in the line.
fn line_step(alloc: Global, b: u8, after: &[u8]) -> Result<Step, AllocError>
    ensures step { IfOk result (λ s. turn_of s ≡ turn_at line_begins b after.now) }
    ensures bound { IfOk result (λ s. HasRoom s (length after.now)) }
{
    if b == b'\n' {
        Ok(Step::LineEnds(Place::LineBegins))
    } else if is_blank(b) {
        Ok(Step::Passes(Place::LineBegins))
    } else if b == b'&' {
        Ok(Step::Begins(begin_token(alloc, after)?))
    } else {
        Ok(Step::Passes(Place::Passing))
    }
}

/// Bytes that are passed over up to the line's end, and where the next line begins.
fn passed(b: u8, place: Place, next: Place) -> Step
    ensures step { turn_of result
        ≡ (if b == 10 then line_ends (where_of next) else passes (where_of place)) }
    ensures bound { HasRoom result 0 }
{
    if b == b'\n' {
        Step::LineEnds(next)
    } else {
        Step::Passes(place)
    }
}

/// In a group.
fn group_step(alloc: Global, b: u8, after: &[u8]) -> Result<Step, AllocError>
    ensures step { IfOk result (λ s. turn_of s ≡ turn_at in_group b after.now) }
    ensures bound { IfOk result (λ s. HasRoom s (length after.now)) }
{
    if b == b'\n' {
        Ok(Step::LineEnds(Place::InGroup))
    } else if is_gap(b, after) {
        Ok(Step::Passes(Place::InGroup))
    } else if b == b'!' {
        Ok(Step::Passes(Place::InComment))
    } else {
        Ok(Step::Begins(group_token(alloc, b, after)?))
    }
}

/// What a byte is at this place, where these bytes follow it.
pub(crate) fn step_at(alloc: Global, place: Place, b: u8, after: &[u8]) -> Result<Step, AllocError>
    ensures step { IfOk result (λ s. turn_of s ≡ turn_at (where_of place) b after.now) }
    ensures bound { IfOk result (λ s. HasRoom s (length after.now)) }
{
    match place {
        Place::LineBegins => line_step(alloc, b, after),
        Place::Passing => Ok(passed(b, Place::Passing, Place::LineBegins)),
        Place::InGroup => group_step(alloc, b, after),
        Place::InComment => Ok(passed(b, Place::InComment, Place::InGroup)),
    }
}
