//! The codes of a row's keys.
ghost use Rattle.std.specs.Prelude.{◌≡◌, ◌<◌, length, map, option_to_list, IfNone, IfSome, OnOk};
ghost use Rattle.agg_model.specs.declared.aggregation.Kind.{Kind};
ghost use Rattle.agg_evaluation.specs.Keys.{keys as keys_of_row};
ghost use Rattle.agg_evaluation.specs.Rows.{row_of, values_of};
ghost use Rattle.shard_columns.specs.Built.{IsShard};
ghost use Rattle.date_agg.specs.Codes.{IsReady, is_code, key_of};
ghost use Rattle.date_agg.specs.Dates.{HoldsDates};

use crate::prepared::PreparedDateHistogram;
use date_periods::code_of;
use histogram_agg::{Coder, count_codes, only_code, put_codes};
use shard_columns::Shard;
use std::alloc::AllocError;

/// Whether a number is the code of a key within the hard bounds.
pub(crate) fn is_allowed(prepared: &PreparedDateHistogram, code: i64) -> bool
    ensures { result ≡ is_code prepared.now code }
{
    prepared.first <= code && code <= prepared.last
}

impl Coder for PreparedDateHistogram {
    ghost use Rattle.date_spec.specs.Periods.{IsInstant};
    ghost use Rattle.date_agg.specs.Codes.{is_code, number_at};

    ghost field_of = { λ p. p.field };

    ghost missing_of = { λ p. p.missing };

    ghost can_code = { λ p instant. IsInstant instant };

    ghost code_of = { number_at };

    ghost is_kept = { is_code };

    fn field(&self) -> u32 {
        self.field
    }

    fn missing(&self) -> Option<i64> {
        self.missing
    }

    fn code(&self, number: i64) -> i64 {
        code_of(self.period, self.zone, number)
    }

    fn keeps(&self, code: i64) -> bool {
        is_allowed(self, code)
    }
}

/// Puts the codes of the row's keys, each once and ascending, in the place of what the list has. It takes time in proportion
/// to the row's values, and memory only where the list has no room for them.
pub fn codes(
    shard: &Shard,
    prepared: &PreparedDateHistogram,
    row: u32,
    codes: &mut Vec<i64>,
) -> Result<(), AllocError>
    requires built { IsShard shard.now }
    requires dates { HoldsDates shard.now prepared.now.field }
    requires in_range { row < length shard.now.rows }
    ensures keys { OnOk result ((kind : Kind) → IsReady kind prepared.now →
        map (key_of prepared.now) codes.new.items ≡ keys_of_row shard.now.rows kind (row_of shard.now.rows row)) }
{
    put_codes(shard, prepared, row, codes)
}

/// The code of the row's one key, where the row has at most one value of the field; `Some(None)` says that it has no key. `None`
/// comes only of a row of more values, which has the codes that `codes` gives. Time is constant, and no list is wanted.
pub fn lone_code(shard: &Shard, prepared: &PreparedDateHistogram, row: u32) -> Option<Option<i64>>
    requires built { IsShard shard.now }
    requires dates { HoldsDates shard.now prepared.now.field }
    requires in_range { row < length shard.now.rows }
    ensures keys { IfSome result (λ code. (kind : Kind) → IsReady kind prepared.now →
        map (key_of prepared.now) (option_to_list code) ≡ keys_of_row shard.now.rows kind (row_of shard.now.rows row)) }
    ensures none { IfNone result (1 < length (values_of prepared.now.field (row_of shard.now.rows row))) }
{
    only_code(shard, prepared, row)
}

/// The number of the row's keys. It takes time in proportion to the row's values, and no memory.
pub fn count(shard: &Shard, prepared: &PreparedDateHistogram, row: u32) -> u64
    requires built { IsShard shard.now }
    requires dates { HoldsDates shard.now prepared.now.field }
    requires in_range { row < length shard.now.rows }
    ensures { (kind : Kind) → IsReady kind prepared.now →
        result ≡ length (keys_of_row shard.now.rows kind (row_of shard.now.rows row)) }
{
    count_codes(shard, prepared, row)
}
