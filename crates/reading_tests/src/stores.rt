//! The store that bulk actions change, and its cut into shards.
ghost use Rattle.std.specs.Prelude.{◌≤◌, IfOk};
ghost use Rattle.agg_model.specs.MappingOrder.{IsOrdered};

use agg_documents::{Store, document_of, shard_of};
use agg_mapping::index_line_of;
use agg_model::{Action, ActionKind, Applied, Bytes, Document, List, Mapping, Scalar, Text};
use agg_reading::IndexLine;
use document_rows::ItemFault;
use std::alloc::{AllocError, Global};
use std::process::Abort;
use std::test::Fail;

/// What is read of an index line.
fn line_of(alloc: Global, bytes: &[u8]) -> Result<IndexLine, Fail>
    ensures { IfOk result (λ line. IsOrdered line.mapping) }
{
    match index_line_of(alloc, bytes) {
        Ok(line) => Ok(line),
        Err(_) => Err(Fail::new("no index line")),
    }
}

/// An index line with the keyword `t`.
fn keyword_line(alloc: Global) -> Result<IndexLine, Fail>
    ensures { IfOk result (λ line. IsOrdered line.mapping) }
{
    line_of(
        alloc,
        b"{\"index\":\"i\",\"mappings\":{\"properties\":{\"t\":{\"type\":\"keyword\"}}}}",
    )
}

/// An index line with the 1,000 numbers `n0` to `n999`.
fn wide_line(alloc: Global) -> Result<IndexLine, Fail>
    ensures { IfOk result (λ line. IsOrdered line.mapping) }
{
    let mut text = String::from_str(alloc, "{\"index\":\"i\",\"mappings\":{\"properties\":{")?;
    for place in 0..999u32 {
        text.push_str(format!(in alloc; "\"n{place}\":{{\"type\":\"long\"}},")?.as_str())?;
    }
    text.push_str("\"n999\":{\"type\":\"long\"}}}}")?;
    line_of(alloc, text.as_bytes())
}

/// What an action whose routing is its id did, or the number of its refusal, 0 for want of memory.
fn applied(
    alloc: Global,
    store: &mut Store,
    mapping: &Mapping,
    kind: ActionKind,
    id: &str,
    source: &[u8],
) -> Result<Result<Applied, u8>, AllocError>
    requires { IsOrdered mapping.now }
{
    let action = Action {
        kind,
        id: Text::of(alloc, id)?,
        routing: Text::of(alloc, id)?,
        source: Bytes::of(alloc, source)?,
    };
    match store.apply(mapping, action) {
        Ok(what) => Ok(Ok(what)),
        Err(ItemFault::Refused(refusal)) => Ok(Err(refusal.number)),
        Err(ItemFault::Memory) => Ok(Err(0)),
    }
}

/// Whether an action did this, or was refused with this number.
fn does(
    alloc: Global,
    store: &mut Store,
    mapping: &Mapping,
    kind: ActionKind,
    id: &str,
    source: &[u8],
    wanted: Result<Applied, u8>,
) -> bool
    requires { IsOrdered mapping.now }
{
    match applied(alloc, store, mapping, kind, id, source) {
        Ok(what) => what == wanted,
        Err(_) => false,
    }
}

/// An action of this kind, with this id and this source, and what it does or the number of its refusal.
type Step<'a> = (ActionKind, &'a str, &'a str, Result<Applied, u8>);

/// Asserts what one action after another does.
fn expect_all(
    rt: &impl Abort,
    alloc: Global,
    store: &mut Store,
    mapping: &Mapping,
    steps: &[Step<'_>],
)
    requires { IsOrdered mapping.now }
{
    for &(kind, id, source, wanted) in steps {
        let is_done = does(alloc, store, mapping, kind, id, source.as_bytes(), wanted);
        assert!(rt; is_done, "{id} {source}");
    }
}

fn is_document(document: Option<&Document>, id: &str, word: &str) -> bool {
    let Some(document) = document else {
        return false;
    };
    let Some(field) = document.root.values.get(0) else {
        return false;
    };
    match field.values.get(0) {
        Some(Scalar::Word(found)) => document.id.as_str() == id && found.as_str() == word,
        _ => false,
    }
}

/// Whether a shard has this one document.
fn has_one(shard: Option<&List<Document>>, id: &str, word: &str) -> bool {
    match shard {
        Some(documents) => documents.len() == 1 && is_document(documents.get(0), id, word),
        None => false,
    }
}

#[test]
fn a_second_create_is_refused_and_a_delete_of_nothing_is_not_found(
    rt: HostRuntime,
) -> Result<(), Fail> {
    let alloc = rt.alloc();
    let line = keyword_line(alloc)?;
    let map = &line.mapping;
    let mut store = Store::new(alloc);
    let create = ActionKind::Create;
    let steps = &[
        (create, "1", "{\"t\":\"a\"}", Ok(Applied::Created)),
        (create, "1", "{\"t\":\"b\"}", Err(26)),
        (ActionKind::Delete, "9", "", Ok(Applied::NotFound)),
    ];
    expect_all(&rt, alloc, &mut store, map, steps);
    assert!(rt; store.len() == 1 && is_document(store.get(0), "1", "a"));
    Ok(())
}

#[test]
fn a_deleted_id_that_comes_again_takes_its_old_place(rt: HostRuntime) -> Result<(), Fail> {
    let alloc = rt.alloc();
    let line = keyword_line(alloc)?;
    let map = &line.mapping;
    let mut store = Store::new(alloc);
    let index = ActionKind::Index;
    let steps = &[
        (index, "x", "{\"t\":\"a\"}", Ok(Applied::Created)),
        (index, "y", "{\"t\":\"b\"}", Ok(Applied::Created)),
        (ActionKind::Delete, "x", "", Ok(Applied::Deleted)),
    ];
    expect_all(&rt, alloc, &mut store, map, steps);
    assert!(rt; store.len() == 1 && is_document(store.get(0), "y", "b"));
    let steps = &[
        (index, "x", "{\"t\":\"c\"}", Ok(Applied::Created)),
        (index, "y", "{\"t\":{}}", Err(21)),
        (index, "y", "{\"t\":\"d\"}", Ok(Applied::Updated)),
    ];
    expect_all(&rt, alloc, &mut store, map, steps);
    assert!(rt; is_document(store.get(0), "x", "c") && is_document(store.get(1), "y", "d"));
    assert!(rt; store.get(2).is_none());
    Ok(())
}

#[test]
fn routings_1_and_0_choose_shards_0_and_1(rt: HostRuntime) -> Result<(), Fail> {
    let alloc = rt.alloc();
    let line = keyword_line(alloc)?;
    let map = &line.mapping;
    let mut store = Store::new(alloc);
    let index = ActionKind::Index;
    let steps = &[
        (index, "0", "{\"t\":\"a\"}", Ok(Applied::Created)),
        (index, "1", "{\"t\":\"b\"}", Ok(Applied::Created)),
    ];
    expect_all(&rt, alloc, &mut store, map, steps);
    assert!(rt; shard_of(b"1", 2) == 0 && shard_of(b"0", 2) == 1);
    let shards = dealt(store, 2)?;
    assert!(rt;
        shards.len() == 2 && has_one(shards.get(0), "1", "b") && has_one(shards.get(1), "0", "a")
    );
    Ok(())
}

#[test]
fn a_document_has_the_given_id_and_routing(rt: HostRuntime) -> Result<(), Fail> {
    let alloc = rt.alloc();
    let line = keyword_line(alloc)?;
    let id = Text::of(alloc, "x")?;
    let routing = Text::of(alloc, "r")?;
    match document_of(alloc, &line.mapping, &id, &routing, b"{\"t\":\"a\"}") {
        Ok(document) => {
            assert!(rt; document.routing == routing && is_document(Some(&document), "x", "a"));
            Ok(())
        }
        Err(_) => Err(Fail::new("no document")),
    }
}

/// Whether the document of a number is created, with values of three of the 1,000 fields.
fn is_created(
    alloc: Global,
    store: &mut Store,
    mapping: &Mapping,
    number: u32,
) -> Result<bool, AllocError>
    requires { IsOrdered mapping.now }
{
    let id = format!(in alloc; "{number}")?;
    let first = number % 1_000;
    let second = (number / 1_000) % 1_000;
    let source = format!(in alloc; "{{\"n{first}\":{number},\"n{second}\":[1,2],\"n999\":-1}}")?;
    Ok(does(
        alloc,
        store,
        mapping,
        ActionKind::Index,
        id.as_str(),
        source.as_bytes(),
        Ok(Applied::Created),
    ))
}

/// Whether the document of a number is deleted.
fn is_deleted(
    alloc: Global,
    store: &mut Store,
    mapping: &Mapping,
    number: u32,
) -> Result<bool, AllocError>
    requires { IsOrdered mapping.now }
{
    let id = format!(in alloc; "{number}")?;
    Ok(does(
        alloc,
        store,
        mapping,
        ActionKind::Delete,
        id.as_str(),
        b"",
        Ok(Applied::Deleted),
    ))
}

/// Asserts that 100,000 documents are created.
fn expect_created(
    rt: &impl Abort,
    alloc: Global,
    store: &mut Store,
    mapping: &Mapping,
) -> Result<(), Fail>
    requires { IsOrdered mapping.now }
{
    for number in 0..100_000u32 {
        assert!(rt; is_created(alloc, store, mapping, number)?, "at {number}");
    }
    Ok(())
}

/// Asserts that every tenth of them is deleted.
fn expect_deleted(
    rt: &impl Abort,
    alloc: Global,
    store: &mut Store,
    mapping: &Mapping,
) -> Result<(), Fail>
    requires { IsOrdered mapping.now }
{
    for tenth in 0..10_000u32 {
        assert!(rt;
            is_deleted(alloc, store, mapping, tenth * 10)?,
            "at {tenth}"
        );
    }
    Ok(())
}

/// The documents, dealt to so many shards.
fn dealt(store: Store, shards: u32) -> Result<List<List<Document>>, AllocError>
    requires { 1 ≤ shards }
{
    store.into_shards(shards)
}

/// The number of documents of each shard.
fn sizes_of(alloc: Global, shards: &List<List<Document>>) -> Result<Vec<usize>, AllocError> {
    let mut sizes = Vec::new(alloc);
    for documents in shards.as_slice() {
        sizes.push(documents.len())?;
    }
    Ok(sizes)
}

#[test]
fn every_tenth_of_100_000_documents_with_1_000_fields_is_deleted_and_the_others_are_dealt(
    rt: HostRuntime,
) -> Result<(), Fail> {
    let alloc = rt.alloc();
    let line = wide_line(alloc)?;
    let mut store = Store::new(alloc);
    expect_created(&rt, alloc, &mut store, &line.mapping)?;
    expect_deleted(&rt, alloc, &mut store, &line.mapping)?;
    assert!(rt; store.len() == 90_000);
    let sizes = sizes_of(alloc, &dealt(store, 4)?)?;
    assert!(rt; sizes.as_slice() == [22_500, 22_499, 22_500, 22_501].as_slice());
    Ok(())
}
