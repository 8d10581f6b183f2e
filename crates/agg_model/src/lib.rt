//! The plain types that every layer of `aggs` speaks of: mappings, documents, queries, aggregations,
//! partial results, answers, bulk items, breaker numbers and settings. They hold values and decide nothing.
#![tactic(auto)]

mod aggregation;
mod answer;
pub mod body_refusal;
mod boxed;
mod breaker;
mod bulk;
mod bytes;
mod compared;
mod copying;
pub mod costs;
pub mod item_refusal;
mod key;
pub mod limits;
mod list;
mod mapping;
mod outcome;
mod partial;
mod pipeline;
mod query;
mod row;
pub mod script_refusal;
mod settings;
mod text;

pub use aggregation::{Agg, Bounds, CompositeSource, Kind, Order, OrderBy, Search, Spacing};
pub use answer::{Answer, BucketAnswer, NodeAnswer};
pub use boxed::Boxed;
pub use breaker::{BreakerStats, Child, Limits, Totals, Tripped, Which};
pub use bulk::{Action, ActionKind, Applied, Item, ItemEnd, ItemRefusal};
pub use bytes::Bytes;
pub use copying::Copying;
pub use key::Key;
pub use list::List;
pub use mapping::{Field, FieldKind, Mapping, NestedPath};
pub use outcome::{Answered, Failure, Outcome, Refused};
pub use partial::{Bucket, Metric, Node, Partial};
pub use pipeline::{Note, Pipe, PipeKind, PipeOrder, PipePath, Piped};
pub use query::{Probe, Query, RangeOp, RangeTest};
pub use row::{Children, Document, FieldValues, Row, Scalar};
pub use settings::{Generate, Settings, Usage};
pub use text::Text;
