// Answers made of what stands, from the aggregations down.
ghost use Rattle.std.specs.Prelude.{◌≡◌, IfOk, IsTrue, map};
ghost use Rattle.std.specs.List.{list_all};
ghost use Rattle.agg_evaluation.specs.Trees.{pass_each};
ghost use Rattle.agg_spec.specs.Final.{finish_each as finished_each};
ghost use Rattle.agg_evaluation.specs.Conditions.{has_intervals};
ghost use Rattle.final_reduce.specs.Standing.{builder, is_standing};
ghost use Rattle.final_reduce.specs.Selection.{chosen_pass, finish_chosen as finished_choice};

use crate::select::{Chosen, select};
use agg_model::{Agg, BucketAnswer, Copying, List, Node, NodeAnswer};
use std::alloc::{AllocError, Global};

/// The answers of aggregations side by side.
#[cycle(finish)]
pub(crate) fn finish_each(
    alloc: Global,
    aggs: &List<Agg>,
    nodes: List<Node>,
) -> Result<List<NodeAnswer>, AllocError>
    requires intervals { IsTrue (list_all has_intervals aggs.now) }
    requires nodes { IsTrue (pass_each (map is_standing aggs.now) nodes) }
    ensures { IfOk result (λ answers. answers ≡ finished_each (map builder aggs.now) nodes) }
{
    let mut answers = List::new(alloc);
    let mut left = nodes.into_vec().into_iter();
    for agg in aggs.as_slice() {
        match left.next() {
            Some(node) => answers.push(finish_node(alloc, agg, node)?)?,
            None => return Ok(answers),
        }
    }
    Ok(answers)
}

#[cycle(finish)]
fn finish_node(alloc: Global, agg: &Agg, node: Node) -> Result<NodeAnswer, AllocError>
    requires intervals { IsTrue (has_intervals agg.now) }
    requires node { IsTrue (is_standing agg.now node) }
    ensures { IfOk result (λ a. a ≡ (builder agg.now).finish node) }
{
    let selected = select(alloc, agg, node)?;
    Ok(NodeAnswer {
        name: agg.name.copy(alloc)?,
        buckets: finish_chosen(alloc, &agg.children, selected.chosen)?,
        error: selected.error,
        other: selected.other,
        metric: selected.metric,
    })
}

#[cycle(finish)]
fn finish_chosen(
    alloc: Global,
    children: &List<Agg>,
    chosen: List<Chosen>,
) -> Result<List<BucketAnswer>, AllocError>
    requires intervals { IsTrue (list_all has_intervals children.now) }
    requires chosen { IsTrue (chosen_pass (map is_standing children.now) chosen) }
    ensures { IfOk result (λ bs. bs ≡ map (finished_choice (map builder children.now)) chosen) }
{
    let mut answers = List::new(alloc);
    for choice in chosen.into_vec() {
        answers.push(finish_choice(alloc, children, choice)?)?;
    }
    Ok(answers)
}

#[cycle(finish)]
fn finish_choice(
    alloc: Global,
    children: &List<Agg>,
    choice: Chosen,
) -> Result<BucketAnswer, AllocError>
    requires intervals { IsTrue (list_all has_intervals children.now) }
    requires choice { IsTrue (pass_each (map is_standing children.now) choice.bucket.children) }
    ensures { IfOk result (λ b. b ≡ finished_choice (map builder children.now) choice) }
{
    let Chosen { error, bucket } = choice;
    Ok(BucketAnswer {
        key: bucket.key,
        count: bucket.count,
        error,
        children: finish_each(alloc, children, bucket.children)?,
    })
}
