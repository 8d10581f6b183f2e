//! The page of a composite while rows are added.
ghost use Rattle.std.specs.Prelude.{◌≡◌, IfOk, IsTrue, List as AnyList, length};
ghost use Rattle.agg_evaluation.specs.Whole.{empty_node};
ghost use Rattle.agg_model.specs.declared.aggregation.Agg.{Agg as AnyAgg, out-Agg};
ghost use Rattle.agg_model.specs.declared.partial.Node.{Node as AnyNode};
ghost use Rattle.composite_agg.specs.FirstPages.{empty_page, is_composite};
ghost use Rattle.composite_page.specs.Pages.{is_cursor};
ghost use Rattle.growing_page.specs.GrowingPages.{IsPageOf, page_node};

use agg_model::{Key, Kind};
use composite_agg::HasKey;
use composite_agg::coded::{Code, HasCode};
use composite_agg::lasts::Lasts;
use growing_tree::Tree;
use std::alloc::{AllocError, Global};

/// A bucket of a page.
#[derive(Drop)]
pub(crate) struct Held {
    pub(crate) key: Key,
    pub(crate) count: u64,
    pub(crate) children: Vec<Tree>,
    /// What the bucket costs, with all below it.
    pub(crate) bytes: u64,
    /// What rises with the keys, and by which buckets are found.
    pub(crate) code: Code,
}

impl HasKey for Held {
    ghost key_of = { λ h. h.key };

    fn key(&self) -> &Key {
        &self.key
    }
}

impl HasCode for Held {
    fn code(&self) -> Code {
        self.code
    }
}

/// The buckets that a composite keeps of some rows: at most `size`, in the order of its sources, behind `after`. They stand in
/// runs of neighbours, so that one that enters moves few others.
#[derive(Drop)]
pub struct Page {
    /// The number of buckets.
    pub(crate) held: usize,
    pub(crate) runs: Vec<Vec<Held>>,
    /// By which the run of a key is guessed.
    pub(crate) lasts: Lasts,
    /// For each source, where the dictionary of its field had the word of a last key: a guess for the next one, which is often the same.
    pub(crate) guesses: Vec<u32>,
}

impl Page {
    /// The page of a composite over no row. The key after which the page begins, if any, has a part for each source.
    pub fn begin(alloc: Global, kind: &Kind) -> Result<Page, AllocError>
        requires composite { IsTrue (is_composite kind.now) }
        requires cursor { IsTrue (is_cursor (length (empty_page kind.now).sources) (empty_page kind.now).after) }
        ensures page { IfOk result (λ page. (ds : AnyList (AnyNode → AnyNode)) → IsPageOf kind.now ds page) }
        ensures node { IfOk result (λ page. (ds : AnyList (AnyNode → AnyNode)) (agg : AnyAgg) →
            (out-Agg agg).kind ≡ kind.now → page_node ds page ≡ empty_node agg) }
    {
        match kind {
            Kind::Composite { sources, .. } => Ok(Page {
                held: 0,
                runs: Vec::new(alloc),
                lasts: Lasts::new(alloc),
                guesses: vec![in alloc; 0; sources.len()]?,
            }),
            Kind::Terms { .. }
            | Kind::Histogram { .. }
            | Kind::DateHistogram { .. }
            | Kind::Filters { .. }
            | Kind::Filter { .. }
            | Kind::Missing { .. }
            | Kind::Global
            | Kind::Nested { .. }
            | Kind::ReverseNested { .. }
            | Kind::Sum { .. }
            | Kind::Min { .. }
            | Kind::Max { .. }
            | Kind::Avg { .. }
            | Kind::ValueCount { .. } => unreachable!(),
        }
    }
}
