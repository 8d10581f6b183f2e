//! Instants to texts.
ghost use Rattle.std.specs.Prelude.{◌≡◌, ◌++◌, IfOk, IsTrue, OnOk, string_bytes};
ghost use Rattle.date_spec.specs.DateTexts.{printed_with};
ghost use Rattle.date_spec.specs.Instants.{date_at, is_in_range, time_at};
ghost use Rattle.date_text.specs.ClockText.{date_text, time_text};

use crate::calendar::{date_at, millis_at};
use std::alloc::{AllocError, Global};

/// How many bytes a clock has.
const CLOCK_LENGTH: usize = 23;

/// Appends the date that a clock in UTC shows at an instant, `YYYY-MM-DD`.
fn append_date(text: &mut String, instant: i64) -> Result<(), AllocError>
    requires { IsTrue (is_in_range instant) }
    ensures { OnOk result (string_bytes text.new ≡ string_bytes text.old ++ date_text (date_at instant)) }
{
    let date = date_at(instant);
    let (year, month, day) = (date.year.unsigned_abs(), date.month, date.day);
    write!(text, "{year:04}-{month:02}-{day:02}")
}

/// Appends the time that a clock in UTC shows at an instant, `hh:mm:ss.mmm`.
fn append_time(text: &mut String, instant: i64) -> Result<(), AllocError>
    ensures { OnOk result (string_bytes text.new ≡ string_bytes text.old ++ time_text (time_at instant)) }
{
    let millis = millis_at(instant);
    let (hour, minute) = (millis / 3_600_000, millis / 60_000 % 60);
    let (second, milli) = (millis / 1000 % 60, millis % 1000);
    write!(text, "{hour:02}:{minute:02}:{second:02}.{milli:03}")
}

/// What a clock in UTC shows at an instant, `YYYY-MM-DDThh:mm:ss.mmm`, with the text of an offset behind it.
///
/// The instant is in milliseconds from 1970-01-01T00:00:00.000Z. In UTC the offset is `Z`. What a clock shows that is ahead of UTC is
/// printed from the instant with the clock's offset added, and `read` gives the instant without it. It fails only where memory is
/// wanting.
pub fn print(alloc: Global, instant: i64, offset: &str) -> Result<String, AllocError>
    requires { IsTrue (is_in_range instant) }
    ensures { IfOk result (λ text. string_bytes text ≡ printed_with offset.now instant) }
{
    let mut text = String::with_capacity(alloc, CLOCK_LENGTH + offset.len())?;
    append_date(&mut text, instant)?;
    text.push_str("T")?;
    append_time(&mut text, instant)?;
    text.push_str(offset)?;
    Ok(text)
}
