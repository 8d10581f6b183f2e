//! The keys of codes.
ghost use Rattle.std.specs.Prelude.{◌≡◌, ℤ};
ghost use Rattle.agg_evaluation.specs.Cost.{key_bytes as bytes_of_key};
ghost use Rattle.date_agg.specs.declared.prepared.PreparedDateHistogram.{PreparedDateHistogram};
ghost use Rattle.date_agg.specs.Codes.{key_of};

use crate::prepared::PreparedDateHistogram;
use crate::row_codes::is_allowed;
use agg_model::Key;
use date_periods::key_of_code;

const NUMBER_KEY_BYTES: u64 = 8;

// Between the keys of numbers that are no codes. None of them has 64 bits.
const FAR: i128 = 1 << 64;

const BEYOND: i128 = 1 << 63;

/// The key that a code stands for, the instant at which its period begins. A number that is no code has a key of its own, which
/// no row has.
pub fn key(prepared: &PreparedDateHistogram, code: i64) -> Key
    ensures { result ≡ key_of prepared.now code }
{
    if is_allowed(prepared, code) {
        let instant = key_of_code(prepared.period, prepared.zone, code);
        return Key::Whole(i128::from(instant));
    }
    Key::Whole(i128::from(code) * FAR + BEYOND)
}

/// The bytes by which the key of a code is charged.
pub fn key_bytes(_prepared: &PreparedDateHistogram, _code: i64) -> u64
    ensures { result ≡ bytes_of_key (key_of _prepared.now _code) }
{
    NUMBER_KEY_BYTES
}

/// Different codes have different keys.
pub fn codes_have_keys_of_their_own()
    ensures { (p : PreparedDateHistogram) (c d : ℤ) → key_of p c ≡ key_of p d → c ≡ d }
{}
