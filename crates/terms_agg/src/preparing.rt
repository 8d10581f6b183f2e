//! Preparing a terms aggregation for a shard.
ghost use Rattle.std.specs.Prelude.{◌≡◌, ◌<◌, List, length, true, IfOk, IsTrue};
ghost use Rattle.agg_model.specs.declared.aggregation.Kind.{Kind};
ghost use Rattle.agg_model.specs.declared.mapping.Mapping.{Mapping};
ghost use Rattle.agg_model.specs.Options.{TermsOptions, terms_kind};
ghost use Rattle.agg_evaluation.specs.Keys.{is_included as is_included_key};
ghost use Rattle.agg_evaluation.specs.SearchFits.{terms_made};
ghost use Rattle.shard_columns.specs.Built.{IsShardOf};
ghost use Rattle.shard_columns.specs.Columns.{Columns};
ghost use Rattle.shard_columns.specs.Dictionary.{words_of};
ghost use Rattle.terms_agg.specs.Codes.{content_in, is_content};
ghost use Rattle.terms_agg.specs.Prepared.{IsTermsOf, IsTerms, IsReady, IsCodeOfValue, IsCodeOfMissing, IncludesAsAll, ExcludesAsAll};

use crate::code_sets::{Codes, codes_of};
use crate::included::{cell_of, is_included};
use crate::prepared::PreparedTerms;
use agg_model::{Copying, Kind, List, Probe, Scalar, Text};
use shard_columns::Shard;
use std::alloc::{AllocError, Global};

/// A code, and the word that it stands for where no row has it.
#[derive(Drop)]
struct Coded<C> {
    code: C,
    other: Option<Text>,
}

fn code_of_value(
    alloc: Global,
    shard: &Shard,
    field: u32,
    value: &Scalar,
) -> Result<Coded<i64>, AllocError>
    requires { is_content (content_in shard.now field) value.now ≡ true }
    ensures { IfOk result (λ c. IsCodeOfValue (content_in shard.now field) (words_of field shard.now.rows) value.now c.code c.other) }
{
    match value {
        Scalar::Whole(number) => Ok(Coded {
            code: *number,
            other: None,
        }),
        Scalar::Flag(flag) => Ok(Coded {
            code: i64::from(*flag),
            other: None,
        }),
        Scalar::Word(word) => match shard.find_word(field, word.as_str().as_bytes()) {
            Some(ordinal) => Ok(Coded {
                code: i64::from(ordinal),
                other: None,
            }),
            None => Ok(Coded {
                code: i64::from(shard.words(field)),
                other: Some(word.copy(alloc)?),
            }),
        },
    }
}

fn code_of_missing(
    alloc: Global,
    shard: &Shard,
    field: u32,
    include: &Option<List<Probe>>,
    exclude: &List<Probe>,
    missing: &Option<Scalar>,
) -> Result<Coded<Option<i64>>, AllocError>
    requires { IsTermsOf shard.now field missing.now }
    ensures { IfOk result (λ c. IsCodeOfMissing (content_in shard.now field) (words_of field shard.now.rows)
        (is_included_key include.now exclude.now) missing.now c.code c.other) }
{
    if let Some(value) = missing {
        if is_included(cell_of(value), include, exclude) {
            let coded = code_of_value(alloc, shard, field, value)?;
            return Ok(Coded {
                code: Some(coded.code),
                other: coded.other,
            });
        }
    }
    Ok(Coded {
        code: None,
        other: None,
    })
}

fn included_codes(
    alloc: Global,
    shard: &Shard,
    field: u32,
    include: &Option<List<Probe>>,
) -> Result<Option<Codes>, AllocError>
    requires { field < length shard.now.kinds }
    ensures { IfOk result (λ set. IncludesAsAll (content_in shard.now field) (words_of field shard.now.rows) include.now set) }
{
    match include {
        Some(probes) => {
            let codes = codes_of(alloc, shard, field, probes.as_slice())?;
            Ok(Some(codes))
        }
        None => Ok(None),
    }
}

fn excluded_codes(
    alloc: Global,
    shard: &Shard,
    field: u32,
    exclude: &List<Probe>,
) -> Result<Option<Codes>, AllocError>
    requires { field < length shard.now.kinds }
    ensures { IfOk result (λ set. ExcludesAsAll (content_in shard.now field) (words_of field shard.now.rows) exclude.now set) }
{
    if exclude.as_slice().is_empty() {
        return Ok(None);
    }
    let codes = codes_of(alloc, shard, field, exclude.as_slice())?;
    Ok(Some(codes))
}

/// The terms aggregation, prepared for the shard. Its field is one of the shard's, and what stands for a missing value is of
/// the field's kind. It takes time by the lengths of `include` and `exclude` times the logarithm of the dictionary's length,
/// and memory by their lengths alone.
pub fn prepare(alloc: Global, shard: &Shard, kind: &Kind) -> Result<PreparedTerms, AllocError>
    requires { IsTerms shard.now kind.now }
    ensures { IfOk result (λ p. IsReady shard.now kind.now p) }
{
    match kind {
        Kind::Terms {
            field,
            include,
            exclude,
            missing,
            ..
        } => {
            let included = included_codes(alloc, shard, *field, include)?;
            let excluded = excluded_codes(alloc, shard, *field, exclude)?;
            let coded = code_of_missing(alloc, shard, *field, include, exclude, missing)?;
            Ok(PreparedTerms {
                field: *field,
                include: included,
                exclude: excluded,
                missing: coded.code,
                other: coded.other,
            })
        }
        Kind::Histogram { .. }
        | Kind::DateHistogram { .. }
        | Kind::Filters { .. }
        | Kind::Filter { .. }
        | Kind::Missing { .. }
        | Kind::Global
        | Kind::Nested { .. }
        | Kind::ReverseNested { .. }
        | Kind::Composite { .. }
        | Kind::Sum { .. }
        | Kind::Min { .. }
        | Kind::Max { .. }
        | Kind::Avg { .. }
        | Kind::ValueCount { .. } => unreachable!(),
    }
}

/// A terms aggregation that is made for a mapping can be prepared for each shard of that mapping.
pub fn made_terms_can_be_prepared()
    ensures { (m : Mapping) (shard : Columns) (children : List Kind) (t : TermsOptions) →
        IsShardOf m shard → IsTrue (terms_made m children t) → IsTerms shard (terms_kind t) }
{}
