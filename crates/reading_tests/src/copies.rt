//! Copies of plain types, lent bytes and texts, and the order of keys.
use agg_model::{
    Agg, Boxed, Bytes, CompositeSource, Copying, Key, Kind, List, Pipe, PipeKind, PipeOrder,
    PipePath, Probe, Query, Search, Text,
};
use std::alloc::{AllocError, Global};
use std::test::Fail;

fn one<T: Drop>(alloc: Global, item: T) -> Result<List<T>, AllocError> {
    let mut items = List::new(alloc);
    items.push(item)?;
    Ok(items)
}

/// A cut of buckets by the value of a child.
fn pipe(alloc: Global) -> Result<Pipe, AllocError> {
    let order = PipeOrder {
        path: PipePath::Child(1),
        descending: true,
    };
    Ok(Pipe {
        at: one(alloc, 0)?,
        name: Text::of(alloc, "p")?,
        kind: PipeKind::BucketSort {
            sort: one(alloc, order)?,
            from: 2,
            size: Some(3),
        },
    })
}

/// A composite over one source after a key, under a nested query, with a pipeline.
fn search(alloc: Global) -> Result<Search, AllocError> {
    let value = Probe::Word(Text::of(alloc, "k")?);
    let query = Boxed::new(alloc, Query::Term { field: 1, value })?;
    let source = CompositeSource {
        name: Text::of(alloc, "c")?,
        field: 0,
        interval: Some(10),
        descending: true,
        missing_bucket: false,
    };
    let kind = Kind::Composite {
        sources: one(alloc, source)?,
        size: 2,
        after: Some(Key::Many(one(alloc, Key::Whole(-10))?)),
    };
    let agg = Agg {
        name: Text::of(alloc, "a")?,
        kind,
        children: List::new(alloc),
    };
    Ok(Search {
        query: Query::Nested { path: 0, query },
        aggs: one(alloc, agg)?,
        body_bytes: 7,
        partial: false,
        pipes: one(alloc, pipe(alloc)?)?,
    })
}

#[test]
fn with_memory_a_copy_is_made_and_equals_what_it_copies(rt: HostRuntime) -> Result<(), Fail> {
    let search = search(rt.alloc())?;
    assert!(rt; search.copy(rt.alloc())? == search);
    Ok(())
}

#[test]
fn with_memory_bytes_and_texts_are_taken_and_lent(rt: HostRuntime) -> Result<(), Fail> {
    let bytes = Bytes::of(rt.alloc(), b"a\n")?.copy(rt.alloc())?;
    assert!(rt; bytes.as_slice() == b"a\n".as_slice() && bytes.len() == 2 && !bytes.is_empty());
    assert!(rt; Bytes::from_vec(bytes.into_vec()).len() == 2);
    let text = Text::from_string(String::from_str(rt.alloc(), "é")?);
    assert!(rt; text.as_str() == "é" && text.len() == 2 && !text.is_empty());
    assert!(rt; text < Text::of(rt.alloc(), "ê")?);
    Ok(())
}

#[test]
fn keys_ascend_from_null_to_composite(rt: HostRuntime) -> Result<(), Fail> {
    let word = Key::Word(Text::of(rt.alloc(), "a")?);
    let many = Key::Many(one(rt.alloc(), Key::Null)?);
    assert!(rt; Key::Null < Key::Whole(-1) && Key::Whole(-1) < Key::Whole(0));
    assert!(rt; Key::Whole(0) < Key::Flag(false) && Key::Flag(false) < Key::Flag(true));
    assert!(rt; Key::Flag(true) < word && word < Key::Fixed(0) && Key::Fixed(0) < many);
    Ok(())
}
