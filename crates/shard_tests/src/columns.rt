//! The rows and the words of a shard.
ghost use Rattle.std.specs.Prelude.{◌≡◌, Some, slice_get};
ghost use Rattle.agg_model.specs.declared.mapping.FieldKind.TheVariants.{Keyword};

use crate::sample::sample_shard;
use agg_model::FieldKind;
use shard_columns::{Cell, Shard};
use std::process::Abort;
use std::test::Fail;

// Asserts what a row lies within, and which rows lie within it.
fn expect_row(rt: &impl Abort, shard: &Shard, row: u32, parent: Option<u32>, beneath: &[u32]) {
    assert!(rt; row < shard.len());
    assert_eq!(rt; shard.context(row), u32::from(parent.is_some()));
    assert_eq!(rt; shard.id(row), "1".as_bytes());
    assert_eq!(rt; shard.parent(row), parent);
    assert_eq!(rt; shard.children(row, 0), beneath);
    assert_eq!(rt; shard.child_count(row, 0) as usize, beneath.len());
}

#[test]
fn rows_stand_before_those_within_them(rt: HostRuntime) -> Result<(), Fail> {
    let shard = sample_shard(rt.alloc())?;
    assert_eq!(rt; shard.len(), 4);
    assert_eq!(rt; shard.roots(), 1);
    assert_eq!(rt; shard.root(0), 0);
    expect_row(&rt, &shard, 0, None, [1, 2, 3].as_slice());
    for item in 1..4 {
        expect_row(&rt, &shard, item, Some(0), [item].as_slice());
    }
    Ok(())
}

fn expect_word(rt: &impl Abort, shard: &Shard, ordinal: u32, word: &str) {
    assert!(rt; ordinal < shard.words(0));
    assert_eq!(rt; shard.word(0, ordinal), word.as_bytes());
    assert_eq!(rt; shard.find_word(0, word.as_bytes()), Some(ordinal));
}

// Asserts that the row has the words of these numbers, and no other values.
fn expect_values(rt: &impl Abort, shard: &Shard, row: u32, ordinals: &[u32])
    requires keyword { slice_get shard.now.kinds 0 ≡ Some Keyword }
{
    assert!(rt; row < shard.len());
    assert_eq!(rt; shard.ordinals(row, 0), ordinals);
    assert_eq!(rt; shard.value_count(row, 0) as usize, ordinals.len());
    for place in 0..shard.value_count(row, 0) {
        assert!(rt; matches!(shard.value(row, 0, place), Cell::Word(_)));
    }
}

#[test]
fn words_are_places_in_the_dictionary(rt: HostRuntime) -> Result<(), Fail> {
    let shard = sample_shard(rt.alloc())?;
    assert_eq!(rt; shard.kind(0), FieldKind::Keyword);
    assert_eq!(rt; shard.words(0), 2);
    expect_word(&rt, &shard, 0, "k");
    expect_word(&rt, &shard, 1, "mm");
    assert_eq!(rt; shard.find_word(0, "l".as_bytes()), None);
    assert_eq!(rt; shard.longest(0), 2);
    assert_eq!(rt; shard.column_bytes(), 27);
    expect_values(&rt, &shard, 0, [].as_slice());
    expect_values(&rt, &shard, 2, [1].as_slice());
    expect_values(&rt, &shard, 3, [0].as_slice());
    Ok(())
}
