//! The months of a document's instants, as a shard answers them.
ghost use Rattle.std.specs.Prelude.{◌≡◌, ◌<◌, IfOk, length};
ghost use Rattle.agg_evaluation.specs.Counted.{IsApart};
ghost use Rattle.shard_columns.specs.Built.{IsShard, IsShardOf};
ghost use Rattle.shard_columns.specs.Made.{IsAggFor};
ghost use Rattle.growing_tree.specs.Readiness.{IsReadyFor};
ghost use Rattle.shard_tests.specs.Months.{dated_documents, dated_mapping, months_agg};

use agg_model::{
    Agg, Bounds, Bucket, Document, Field, FieldKind, FieldValues, Key, Kind, List, Mapping, Node,
    Order, OrderBy, Row, Scalar, Text,
};
use date_spec::Period;
use growing_tree::{Ready, TableRoom, Tree, begin, finish, gather, prepare};
use shard_columns::Shard;
use std::alloc::{AllocError, Global};
use std::test::Fail;

// How far the zone is ahead of UTC, in milliseconds.
const HOUR: i64 = 3_600_000;

// When these months begin there: 2024-01-31T23:00Z and 2024-02-29T23:00Z.
const FEBRUARY: i64 = 1_706_742_000_000;

const MARCH: i64 = 1_709_247_600_000;

fn mapping(alloc: Global) -> Result<Mapping, AllocError>
    ensures { IfOk result (λ m. m ≡ dated_mapping) }
{
    let mut fields = List::new(alloc);
    fields.push(Field {
        path: Text::of(alloc, "d")?,
        kind: FieldKind::Date,
        ignore_above: None,
        context: 0,
    })?;
    Ok(Mapping {
        fields,
        nested: List::new(alloc),
        objects: List::new(alloc),
        strict: false,
    })
}

// The document `{"d":["2024-02-29T22:59:59.999Z","2024-02-29T23:00Z"]}`.
fn documents(alloc: Global) -> Result<List<Document>, AllocError>
    ensures { IfOk result (λ ds. ds ≡ dated_documents) }
{
    let mut instants = List::new(alloc);
    instants.push(Scalar::Whole(MARCH - 1))?;
    instants.push(Scalar::Whole(MARCH))?;
    let mut values = List::new(alloc);
    values.push(FieldValues {
        field: 0,
        values: instants,
    })?;
    let mut documents = List::new(alloc);
    documents.push(Document {
        id: Text::of(alloc, "1")?,
        routing: Text::of(alloc, "1")?,
        root: Row {
            values,
            children: List::new(alloc),
        },
    })?;
    Ok(documents)
}

fn dated_shard(alloc: Global) -> Result<Shard, AllocError>
    ensures built { IfOk result (λ s. IsShardOf dated_mapping s) }
    ensures apart { IfOk result (λ s. IsApart s.rows) }
{
    let documents = documents(alloc)?;
    let mapping = mapping(alloc)?;
    let shard = Shard::build(alloc, &documents, &mapping)?;
    Ok(shard)
}

const UNBOUNDED: Bounds = Bounds {
    min: None,
    max: None,
};

fn months(alloc: Global) -> Result<Agg, AllocError>
    ensures { IfOk result (λ agg. agg ≡ months_agg) }
{
    let mut order = List::new(alloc);
    order.push(Order {
        by: OrderBy::Key,
        descending: false,
    })?;
    Ok(Agg {
        name: Text::of(alloc, "months")?,
        kind: Kind::DateHistogram {
            field: 0,
            period: Period::Month,
            zone: HOUR,
            min_doc_count: 0,
            extended: UNBOUNDED,
            hard: UNBOUNDED,
            keyed: false,
            order,
            missing: None,
        },
        children: List::new(alloc),
    })
}

// A bucket of one row with this key.
fn is_month(bucket: &Bucket, start: i64) -> bool {
    bucket.count == 1 && matches!(&bucket.key, Key::Whole(key) if *key == i128::from(start))
}

fn are_months(node: &Node) -> bool {
    let Node::Keyed { buckets, .. } = node else {
        return false;
    };
    match buckets.as_slice() {
        [first, second] => is_month(first, FEBRUARY) && is_month(second, MARCH),
        _ => false,
    }
}

// The tree of the first row alone.
fn tree_of_first(alloc: Global, agg: &Agg, ready: &Ready, shard: &Shard) -> Result<Tree, AllocError>
    requires ready { IsReadyFor shard.now agg.now ready.now }
    requires built { IsShard shard.now }
    requires apart { IsApart shard.now.rows }
    requires some { 0 < length shard.now.rows }
{
    let mut tree = begin(alloc, agg, ready)?;
    let mut spare = Vec::new(alloc);
    let rows = [0].as_slice();
    gather(alloc, agg, ready, shard, rows, &mut spare, &mut tree)?;
    Ok(tree)
}

// What the shard answers of that row.
fn node_of_first(alloc: Global, shard: &Shard, agg: &Agg) -> Result<Node, AllocError>
    requires made { IsAggFor shard.now agg.now }
    requires built { IsShard shard.now }
    requires apart { IsApart shard.now.rows }
    requires some { 0 < length shard.now.rows }
{
    let ready = prepare(alloc, shard, agg, &mut TableRoom::new())?;
    let tree = tree_of_first(alloc, agg, &ready, shard)?;
    finish(alloc, agg, &ready, shard, tree)
}

#[test]
fn instants_fall_into_the_months_of_their_zone(rt: HostRuntime) -> Result<(), Fail> {
    let alloc = rt.alloc();
    let shard = dated_shard(alloc)?;
    let agg = months(alloc)?;
    assert!(rt; shard.len() > 0);
    let node = node_of_first(alloc, &shard, &agg)?;
    assert!(rt; are_months(&node));
    Ok(())
}
