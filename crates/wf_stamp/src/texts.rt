ghost use Rattle.std.specs.Prelude.{◌≡◌, ◌+◌, ◌<◌, ◌≤◌, ◌↔◌, length, Err, IsOk, IsSome, IsTrue};
ghost use Rattle.std.specs.Prelude.{IfOk, IfSome};
ghost use Rattle.wf_model.specs.Calendar.{moment_after, moment_of, text_of};
ghost use Rattle.wf_model.specs.Dates.{is_stamp, last_moment, seconds_before};
ghost use Rattle.wf_model.specs.Letters.{digits_value};
ghost use Rattle.wf_stamp.specs.Moments.{is_moment};

use crate::{Stamp, StampError};

fn digit(n: u32) -> u8
    requires { n < 10 }
    ensures { result ≡ 48 + n }
{
    b'0' + n as u8
}

/// The text of a stamp.
fn text_bytes(stamp: &Stamp) -> [u8; 19]
    ensures { result ≡ text_of stamp.now }
{
    let date = stamp.moment.date();
    let time = stamp.moment.time();
    let year = date.year() as u32;
    let month = date.month() as u32;
    let day = date.day() as u32;
    let hour = time.hour() as u32;
    let minute = time.minute() as u32;
    let second = time.second() as u32;
    [
        digit(year / 1000),
        digit(year / 100 % 10),
        digit(year / 10 % 10),
        digit(year % 10),
        b'-',
        digit(month / 10),
        digit(month % 10),
        b'-',
        digit(day / 10),
        digit(day % 10),
        b'_',
        digit(hour / 10),
        digit(hour % 10),
        b':',
        digit(minute / 10),
        digit(minute % 10),
        b':',
        digit(second / 10),
        digit(second % 10),
    ]
}

/// The text of the moment that is so many seconds after the start. `PastYear9999` comes exactly
/// where that moment is past the last second of the year 9999.
pub fn stamp_text(start: &Stamp, seconds: u64) -> Result<[u8; 19], StampError>
    ensures text { IfOk result (λ text. text ≡ text_of (moment_after start.now seconds)) }
    ensures past { (result ≡ Err StampError.PastYear9999)
        ↔ (9999 < (moment_after start.now seconds).date.year) }

    // The text is one that `read_stamp` takes, and reads as that moment.
    ensures stamp { IfOk result (λ text. IsTrue (is_stamp text)) }
    ensures moment { IfOk result (λ text. moment_of text ≡ moment_after start.now seconds) }

    // The same in seconds since the first day of year 1.
    ensures start { IsTrue (is_moment start.now) }
    ensures seconds { IfOk result
        (λ text. seconds_before (moment_of text) ≡ seconds_before start.now + seconds) }
    ensures last { IsOk result ↔ (seconds_before start.now + seconds ≤ seconds_before last_moment) }
{
    match start.later(seconds) {
        Some(stamp) => Ok(text_bytes(&stamp)),
        None => Err(StampError::PastYear9999),
    }
}

/// The number that up to four digits say. A byte that is no digit counts as one too: the caller
/// refuses it afterwards.
fn number(digits: &[u8]) -> u32
    requires { length digits.now ≤ 4 }
    ensures { result ≡ digits_value digits.now }
{
    let mut number = 0;
    for digit in digits {
        number = number * 10 + u32::from(digit.saturating_sub(b'0'));
    }
    number
}

/// The moment that a text says. `None` exactly where the text is not the one that [`stamp_text`]
/// gives of some moment of the years 1 to 9999.
pub fn read_stamp(text: &[u8]) -> Option<Stamp>
    ensures stamp { IsSome result ↔ IsTrue (is_stamp text.now) }
    ensures moment { IfSome result (λ s. s ≡ moment_of text.now) }
{
    if text.len() != 19 {
        return None;
    }
    let stamp = Stamp::new(
        number(&text[0..4]),
        number(&text[5..7]),
        number(&text[8..10]),
        number(&text[11..13]),
        number(&text[14..16]),
        number(&text[17..19]),
    )?;
    if text == text_bytes(&stamp).as_slice() {
        Some(stamp)
    } else {
        None
    }
}
