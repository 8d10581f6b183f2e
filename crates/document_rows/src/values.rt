//! The values of a field when its row is done: ascending, and words distinct.

ghost use Rattle.std.specs.Prelude.{◌≡◌, IfOk};
ghost use Rattle.agg_reading.specs.Rows.{finished_values};
ghost use Rattle.document_rows.specs.Scalars.{rank, scalar_order, same_word, IsOneKind};

use agg_model::{List, Scalar};
use std::alloc::AllocError;
use std::cmp::Ordering;

/// A number that says which kind of value it is.
fn rank(value: &Scalar) -> u8
    ensures { result ≡ rank value.now }
{
    match value {
        Scalar::Whole(_) => 0,
        Scalar::Word(_) => 1,
        Scalar::Flag(_) => 2,
    }
}

/// Numbers by value, words by their bytes, false before true, and any two kinds in the order of their ranks.
fn compare(a: &Scalar, b: &Scalar) -> Ordering
    ensures { result ≡ scalar_order a.now b.now }
{
    match (a, b) {
        (Scalar::Whole(m), Scalar::Whole(n)) => m.cmp(n),
        (Scalar::Word(v), Scalar::Word(w)) => v.as_str().cmp(&w.as_str()),
        (Scalar::Flag(p), Scalar::Flag(q)) => p.cmp(q),
        _ => rank(a).cmp(&rank(b)),
    }
}

/// Whether both are the same word.
fn is_same_word(a: &Scalar, b: &Scalar) -> bool
    ensures { result ≡ same_word a.now b.now }
{
    match (a, b) {
        (Scalar::Word(v), Scalar::Word(w)) => v.as_str() == w.as_str(),
        _ => false,
    }
}

/// The values of a field, ascending, and each word once. Values that each stand below the next, as a single one does,
/// stay as they are.
pub(crate) fn in_order(values: List<Scalar>) -> Result<List<Scalar>, AllocError>
    requires { IsOneKind values }
    ensures { IfOk result (λ vs. vs ≡ finished_values values) }
{
    if values.as_slice().is_sorted_by(|a, b| compare(a, b).is_lt()) {
        return Ok(values);
    }
    let mut values = values.into_vec();
    values.sort_by(|a, b| compare(a, b))?;
    values.dedup_by(|a, b| is_same_word(a, b));
    Ok(List::from_vec(values))
}
