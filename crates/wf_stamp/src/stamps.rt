ghost use Rattle.std.specs.Prelude.{◌≡◌, ℕ, ◌<◌, ◌≤◌, ◌↔◌, ◌&&◌, pos, IsSome, IsTrue, IfSome};
ghost use Rattle.std.specs.Prelude.{IfNone};
ghost use Rattle.wf_model.specs.Calendar.{moment_after};
ghost use Rattle.wf_model.specs.Dates.{is_date, seconds_between};
ghost use Rattle.wf_stamp.specs.Moments.{day_at, is_clock, is_moment, moment_at};

use jiff::civil::DateTime;
use std::marker::Model;
use std::time::Duration;

/// A moment of the years 1 to 9999, to the second. Contracts see it as its day and the seconds
/// since that day's midnight.
#[derive(Debug, Drop)]
pub struct Stamp {
    pub(crate) moment: DateTime,
}

impl Model for Stamp {
    ghost use Rattle.wf_model.specs.Calendar.{Moment};

    ghost Value = { Moment };

    ghost use Rattle.wf_stamp.specs.Shown.{shown, IsWholeSecond};

    ghost view = { λ s. shown s.moment };

    ghost invariant = { λ s. IsWholeSecond s.moment };
}

impl Stamp {
    /// The moment of this day at this hour (0 to 23), minute and second (0 to 59). `None` exactly
    /// where the years 1 to 9999 have no such moment.
    pub fn new(
        year: u32,
        month: u32,
        day: u32,
        hour: u32,
        minute: u32,
        second: u32,
    ) -> Option<Stamp>
        ensures exists { IsSome result
            ↔ IsTrue (is_date (day_at year month day) && is_clock hour minute second) }
        ensures moment { IfSome result
            (λ s. s ≡ moment_at (day_at year month day) hour minute second) }
    {
        if year == 0 || year > 9999 || month > 12 || day > 31 {
            return None;
        }
        if hour > 23 || minute > 59 || second > 59 {
            return None;
        }
        let moment = DateTime::new(
            year as i16,
            month as i8,
            day as i8,
            hour as i8,
            minute as i8,
            second as i8,
            0,
        )
        .ok()?;
        Some(Stamp { moment })
    }

    /// The moment so many seconds later, or `None` exactly where that is past the year 9999.
    pub(crate) fn later(&self, seconds: u64) -> Option<Stamp>
        ensures moment { IfSome result (λ s. s ≡ moment_after self.now seconds) }
        ensures within { IfSome result (λ s. s.date.year ≤ 9999) }
        ensures past { IfNone result (9999 < (moment_after self.now seconds).date.year) }
        ensures start { IsTrue (is_moment self.now) }
    {
        let moment = self.moment.checked_add(Duration::from_secs(seconds)).ok()?;
        Some(Stamp { moment })
    }
}

/// How many seconds lie from the first moment to the second: fewer than 0 where the second
/// is earlier.
pub fn between(a: &Stamp, b: &Stamp) -> i64
    ensures seconds { result ≡ seconds_between a.now b.now }

    // So many seconds after the first, by the rule that one day follows another, comes the second.
    ensures reached { (n : ℕ) → result ≡ pos n → moment_after a.now n ≡ b.now }
{
    a.moment.duration_until(b.moment).as_secs()
}
