//! The texts of instants, as a clock of some zone shows them.
ghost use Rattle.std.specs.Prelude.{◌≡◌, IfOk, string_bytes};
ghost use Rattle.agg_spec.specs.InstantTexts as text;

use date_spec::{GREATEST_INSTANT, LEAST_INSTANT};
use date_text::print;
use std::alloc::{AllocError, Global};

/// The offset of a zone that is so many milliseconds ahead of UTC.
fn offset_text(alloc: Global, zone: i64) -> Result<String, AllocError>
    ensures { IfOk result (λ s. string_bytes s ≡ text.offset_text zone) }
{
    let minutes = zone.unsigned_abs() / 60_000;
    let (hours, minutes) = (minutes / 60, minutes % 60);
    if zone < 0 {
        format!(in alloc; "-{hours:02}:{minutes:02}")
    } else if zone > 0 {
        format!(in alloc; "+{hours:02}:{minutes:02}")
    } else {
        format!(in alloc; "Z")
    }
}

/// An instant as a clock of a zone shows it, with its offset; where that lies beyond the range of dates the number of the instant.
pub(crate) fn instant_text(alloc: Global, zone: i64, n: i128) -> Result<String, AllocError>
    ensures { IfOk result (λ s. string_bytes s ≡ text.instant_text zone n) }
{
    let ahead = i128::from(zone);
    if i128::from(LEAST_INSTANT) - ahead <= n && n <= i128::from(GREATEST_INSTANT) - ahead {
        let offset = offset_text(alloc, zone)?;
        print(alloc, (n + ahead) as i64, offset.as_str())
    } else {
        format!(in alloc; "{n}")
    }
}
