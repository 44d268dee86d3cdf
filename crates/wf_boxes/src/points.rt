//! Points that places stand for.

ghost use Rattle.std.specs.Prelude.{◌≡◌, ◌+◌, ◌≤◌, ◌||◌, IsTrue, pos};
ghost use Rattle.wf_model.specs.Patches.{in_span};
ghost use Rattle.wf_model.specs.Plans.{wrapped};
ghost use Rattle.wf_boxes.specs.Boxes.{IsWide};

/// The number, from 1, of the point that a place stands for: in a periodic direction places wrap.
pub fn point_of(periodic: bool, count: u32, at: i64) -> u32
    requires some { 1 ≤ count }
    requires wide { IsWide at }
    requires inside { IsTrue
        (periodic || in_span (record { low = pos 1; high = pos (count + 1) }) at) }
    ensures value { result ≡ wrapped periodic count at }
    ensures low { 1 ≤ result }
    ensures high { result ≤ count }
{
    let count = i64::from(count);
    if !periodic || (1 <= at && at <= count) {
        at as u32
    } else {
        (at - 1).rem_euclid(count) as u32 + 1
    }
}
