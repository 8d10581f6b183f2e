//! The rows of a document's source, and its refusals.
use agg_mapping::{OrderedMapping, index_line_of};
use agg_model::{Row, Scalar, Text};
use document_rows::{ItemFault, root_row_of};
use std::alloc::Global;
use std::test::Fail;

const FLAT: &[u8] =
    b"{\"index\":\"i\",\"mappings\":{\"properties\":{\"n\":{\"type\":\"long\"},\"t\":{\"type\":\"keyword\"}}}}";

const NESTED: &[u8] =
    b"{\"index\":\"i\",\"mappings\":{\"properties\":{\"items\":{\"type\":\"nested\",\"properties\":{\"s\":{\"type\":\"keyword\"}}}}}}";

const STRICT: &[u8] =
    b"{\"index\":\"i\",\"mappings\":{\"dynamic\":\"strict\",\"properties\":{\"items\":{\"type\":\"nested\",\"properties\":{\"s\":{\"type\":\"keyword\"}}}}}}";

/// What a source gives by the mapping of an index line; none where that is refused.
fn read(alloc: Global, line: &[u8], source: &[u8]) -> Option<Result<Row, ItemFault>> {
    match index_line_of(alloc, line) {
        Ok(index) => {
            let mapping = OrderedMapping::of(&index.mapping);
            Some(root_row_of(alloc, &mapping, source))
        }
        Err(_) => None,
    }
}

pub(crate) fn is_refused(
    alloc: Global,
    line: &[u8],
    source: &[u8],
    number: u8,
    path: &str,
) -> bool {
    match read(alloc, line, source) {
        Some(Err(ItemFault::Refused(refusal))) => {
            refusal.number == number && refusal.path.as_str() == path
        }
        _ => false,
    }
}

/// The row of a source that is taken.
pub(crate) fn row_of(alloc: Global, line: &[u8], source: &[u8]) -> Result<Row, Fail> {
    match read(alloc, line, source) {
        Some(Ok(row)) => Ok(row),
        _ => Err(Fail::from("refused")),
    }
}

/// Whether the field at this place among those with a value has these values.
pub(crate) fn has_values(row: &Row, place: usize, field: u32, wanted: &[Scalar]) -> bool {
    match row.values.get(place) {
        Some(found) => found.field == field && found.values.as_slice() == wanted,
        None => false,
    }
}

#[test]
fn numbers_repeat_and_words_do_not(rt: HostRuntime) -> Result<(), Fail> {
    let a = rt.alloc();
    let row = row_of(
        a,
        FLAT,
        b"{\"t\":[\"b\",[\"a\",null],\"a\"],\"n\":[5,-1,5],\"x\":{\"n\":\"w\"}}",
    )?;
    assert!(rt; row.values.len() == 2 && row.children.is_empty());
    let numbers = [Scalar::Whole(-1), Scalar::Whole(5), Scalar::Whole(5)];
    assert!(rt; has_values(&row, 0, 0, &numbers));
    let words = [
        Scalar::Word(Text::of(a, "a")?),
        Scalar::Word(Text::of(a, "b")?),
    ];
    assert!(rt; has_values(&row, 1, 1, &words));
    Ok(())
}

#[test]
fn the_first_refusal_has_the_path_of_its_member(rt: HostRuntime) {
    let a = rt.alloc();
    assert!(rt; is_refused(a, FLAT, b"{\"n\":1.5}", 21, "n"));
    assert!(rt; is_refused(a, FLAT, b"{\"n\":9223372036854775808}", 22, "n"));
    assert!(rt; is_refused(a, FLAT, b"[1]", 20, ""));
    assert!(rt; is_refused(a, FLAT, b"{\"n\":1", 20, ""));
    assert!(rt; is_refused(a, NESTED, b"{\"items\":[{\"s\":\"k\"},3]}", 21, "items"));
    assert!(rt; is_refused(a, NESTED, b"{\"items\":{\"s\":{}}}", 21, "items.s"));
}

#[test]
fn a_dotted_name_is_no_field_of_another_context(rt: HostRuntime) -> Result<(), Fail> {
    let a = rt.alloc();
    let source = b"{\"items\":{\"s\":\"k\"},\"items.s\":\"z\"}";
    let row = row_of(a, NESTED, source)?;
    assert!(rt; row.values.is_empty() && row.children.len() == 1);
    if let Some(below) = row.children.get(0) {
        assert!(rt; below.path == 0 && below.rows.len() == 1);
        if let Some(item) = below.rows.get(0) {
            let words = [Scalar::Word(Text::of(a, "k")?)];
            assert!(rt; item.values.len() == 1 && has_values(item, 0, 0, &words));
        }
    }
    assert!(rt; is_refused(a, STRICT, source, 27, "items.s"));
    Ok(())
}

/// A number within so many lists, in an object.
fn within_lists(alloc: Global, lists: usize) -> Result<String, Fail> {
    let mut source = String::from_str(alloc, "{\"n\":")?;
    for _ in 0..lists {
        source.push('[')?;
    }
    source.push('7')?;
    for _ in 0..lists {
        source.push(']')?;
    }
    source.push('}')?;
    Ok(source)
}

#[test]
fn lists_within_lists_are_one_list(rt: HostRuntime) -> Result<(), Fail> {
    let a = rt.alloc();
    let deepest = within_lists(a, 126)?;
    let row = row_of(a, FLAT, deepest.as_bytes())?;
    assert!(rt; has_values(&row, 0, 0, &[Scalar::Whole(7)]));
    let deeper = within_lists(a, 127)?;
    assert!(rt; is_refused(a, FLAT, deeper.as_bytes(), 20, ""));
    Ok(())
}
