//! The page of a composite while keys come.
ghost use Rattle.std.specs.Prelude.{◌≡◌, ◌<◌, ◌-◌, ◌^◌, IfOk, OnOk, OnErr, IsTrue, false, length};
ghost use Rattle.std.specs.List.{AllByRecursion};
ghost use Rattle.agg_model.specs.declared.partial.Node.TheVariants.{Keyed};
ghost use Rattle.agg_evaluation.specs.CompositeKeys.{is_composite_of};
ghost use Rattle.agg_evaluation.specs.Shard.{sorted_by_key};

use crate::offered::Offered;
use crate::offering::offer_to;
use crate::runs::join;
use crate::swapping::swap_in;
use agg_model::{Bucket, CompositeSource, Copying, Key, Kind, List, Node};
use bucket_order::sort_by_key;
use std::alloc::{AllocError, Global};
use std::marker::Model;

/// The first buckets of a composite, in the order of its sources, of the keys that were offered so far. Contracts see it as
/// the composite's sources, size and `after`, and at most `size` buckets in order.
#[derive(Drop)]
pub struct FirstKeys {
    sources: List<CompositeSource>,
    size: u32,
    after: Option<Key>,
    held: usize,
    runs: Vec<Vec<Bucket>>,
}

impl Model for FirstKeys {
    ghost use Rattle.composite_agg.specs.FirstPages.{FirstPage, IsPage};
    ghost use Rattle.composite_agg.specs.PageCodes.{page_code};
    ghost use Rattle.composite_agg.specs.Runs.{AreFilled, in_runs};
    ghost use Rattle.std.specs.Prelude.{◌≡◌, length};

    ghost Value = { FirstPage };

    ghost coded = { page_code };

    ghost view = { λ s. record { sources = s.sources; size = s.size; after = s.after; buckets = in_runs s.runs.items } };

    ghost invariant = { λ s. IsPage (record { sources = s.sources; size = s.size; after = s.after; buckets = in_runs s.runs.items })
        × AreFilled s.runs.items × (s.held ≡ length (in_runs s.runs.items)) };
}

impl FirstKeys {
    ghost use Rattle.composite_agg.specs.FirstPages.{answer_of, children_of, empty_page, is_composite, is_held, page_with, page_with_children};

    /// The empty page of a composite.
    pub fn new(alloc: Global, kind: &Kind) -> Result<FirstKeys, AllocError>
        requires { IsTrue (is_composite kind.now) }
        ensures { IfOk result (λ p. p ≡ empty_page kind.now) }
    {
        match kind {
            Kind::Composite {
                sources,
                size,
                after,
            } => Ok(FirstKeys {
                sources: sources.copy(alloc)?,
                size: *size,
                after: after.copy(alloc)?,
                held: 0,
                runs: Vec::new(alloc),
            }),
            Kind::Terms { .. }
            | Kind::Histogram { .. }
            | Kind::DateHistogram { .. }
            | Kind::Filters { .. }
            | Kind::Filter { .. }
            | Kind::Missing { .. }
            | Kind::Global
            | Kind::Nested { .. }
            | Kind::ReverseNested { .. }
            | Kind::Sum { .. }
            | Kind::Min { .. }
            | Kind::Max { .. }
            | Kind::Avg { .. }
            | Kind::ValueCount { .. } => unreachable!(),
        }
    }

    /// Puts a key into the page, or counts it there. It is `Outside` where it does not come after `after`, or comes after
    /// all of a full page, which one comparison with the last key tells. A new key enters with the count 1 and these
    /// children, and the last bucket leaves a full page. Each key has a part for each source, and no count is 2^64 - 1.
    /// Finding the key takes the logarithm of the page. A key that enters moves those behind it in its run, which are fewer
    /// than 64; where a run becomes so long it is parted, which moves the runs behind it, of 32 buckets or more each. After
    /// want of memory the page is as before.
    pub fn offer(&mut self, key: Key, children: List<Node>) -> Result<Offered, AllocError>
        requires parts { IsTrue (is_composite_of (length self.old.sources) key) }
        requires few { AllByRecursion (λ b. b.count < 2 ^ 64 - 1) self.old.buckets }
        ensures answer { IfOk result (λ o. o ≡ answer_of self.old key) }
        ensures page { OnOk result (self.new ≡ page_with self.old key children) }
        ensures err { OnErr result (self.new ≡ self.old) }
    {
        offer_to(
            &self.sources,
            self.size,
            &self.after,
            &mut self.held,
            &mut self.runs,
            key,
            children,
        )
    }

    /// Exchanges the children of the bucket of a key with the list that is lent, and answers whether the key is there. Where it
    /// is not, nothing changes. It takes the logarithm of the page, and no memory.
    pub fn swap_children(&mut self, key: &Key, children: &mut List<Node>) -> bool
        ensures held { result ≡ is_held self.old key.now }
        ensures page { self.new ≡ page_with_children self.old key.now children.old }
        ensures children { children.new ≡ children_of key.now children.old self.old.buckets }
        ensures absent { result ≡ false → (self.new ≡ self.old) × (children.new ≡ children.old) }
    {
        swap_in(&self.sources, &mut self.runs, key, children)
    }

    /// The buckets as a node, ascending by key; after want of memory they are spent.
    pub fn into_node(self) -> Result<Node, AllocError>
        ensures { IfOk result (λ n. n ≡ Keyed (sorted_by_key self.buckets) 0 0 0) }
    {
        let FirstKeys {
            sources: _,
            size: _,
            after: _,
            held: _,
            runs,
        } = self;
        let mut buckets = join(*runs.allocator(), runs)?;
        sort_by_key(&mut buckets)?;
        Ok(Node::Keyed {
            buckets: List::from_vec(buckets),
            error: 0,
            full: 0,
            cut: 0,
        })
    }
}
