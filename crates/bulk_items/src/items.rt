//! The items of a bulk response, their ids behind one another.
ghost use Rattle.std.specs.Prelude.{◌≡◌, ◌++◌, ◌∷◌, ◌<◌, ℕ, [], Some, IfOk, OnErr, OnOk, length};
ghost use Rattle.bulk_items.specs.Items.{end_in, end_of, item_at, item_of, refusal_in, with_last_end};

use agg_model::{ActionKind, Applied, ItemEnd, ItemRefusal};
use packed_texts::PackedTexts;
use std::alloc::{AllocError, Global};
use std::collections::BTreeMap;
use std::marker::Model;

/// What is kept of an item beside its id and its refusal.
#[derive(Clone, Copy)]
pub struct Mark {
    pub kind: ActionKind,
    /// What the action did; none where it was refused, and its refusal is kept.
    pub applied: Option<Applied>,
}

/// How an item ended, its refusal lent.
#[derive(Clone, Copy)]
pub enum EndView<'a> {
    Applied(Applied),
    Refused(&'a ItemRefusal),
}

/// The items of a bulk response: an item takes 7 bytes beside those of its id, and no memory of its own unless it was
/// refused. Contracts see the list of the items.
#[derive(Drop)]
pub struct Items {
    ids: PackedTexts,
    marks: Vec<Mark>,
    /// The refusal of each place whose action was refused. One that stands behind the last mark, or where an action did something,
    /// is not looked at.
    refusals: BTreeMap<usize, ItemRefusal>,
}

impl Model for Items {
    ghost use Rattle.std.specs.Prelude.{List};
    ghost use Rattle.agg_model.specs.declared.bulk.Item.{Item};
    ghost use Rattle.bulk_items.specs.Items.{items_of, refusal_in, AreKept};

    ghost Value = { List Item };

    ghost view = { λ s. items_of (refusal_in s.refusals) s.ids s.marks.items };

    ghost invariant = { λ s. AreKept (refusal_in s.refusals) s.ids s.marks.items };
}

// Keeps the refusal of a place that was refused, and gives what its mark says of how it ended.
fn settle(
    refusals: &mut BTreeMap<usize, ItemRefusal>,
    place: usize,
    end: ItemEnd,
) -> Result<Option<Applied>, AllocError>
    ensures end { IfOk result (λ applied. end_in applied (refusal_in refusals.new place) ≡ Some end) }
    ensures others { (other : ℕ) → ¬ (other ≡ place) → refusal_in refusals.new other ≡ refusal_in refusals.old other }
    ensures memory { OnErr result (refusal_in refusals.new place ≡ refusal_in refusals.old place) }
{
    match end {
        ItemEnd::Applied(applied) => Ok(Some(applied)),
        ItemEnd::Refused(refusal) => {
            refusals.insert(place, refusal)?;
            Ok(None)
        }
    }
}

impl Items {
    /// No item.
    pub fn new(alloc: Global) -> Self
        ensures { result ≡ [] }
    {
        Items {
            ids: PackedTexts::new(alloc),
            marks: Vec::new(alloc),
            refusals: BTreeMap::new(alloc),
        }
    }

    /// How many they are.
    pub fn len(&self) -> usize
        ensures { result ≡ length self.now }
    {
        self.marks.len()
    }

    /// The action at a place.
    pub fn kind(&self, place: usize) -> ActionKind
        requires { place < length self.now }
        ensures { result ≡ (item_at self.now place).kind }
    {
        self.marks[place].kind
    }

    /// The id at a place.
    pub fn id(&self, place: usize) -> &str
        requires { place < length self.now }
        ensures { result.now ≡ (item_at self.now place).id }
    {
        self.ids.get(place)
    }

    /// How the item at a place ended.
    pub fn end(&self, place: usize) -> EndView<'_>
        requires { place < length self.now }
        ensures { end_of result ≡ (item_at self.now place).end }
    {
        match self.marks[place].applied {
            Some(applied) => EndView::Applied(applied),
            None => match self.refusals.get(&place) {
                Some(refusal) => EndView::Refused(refusal),
                None => unreachable!(),
            },
        }
    }

    /// Adds an item behind the others; want of memory is also that all ids would have 4 GiB or more. After want of memory they
    /// are as before.
    pub fn push(&mut self, kind: ActionKind, id: &str, end: ItemEnd) -> Result<(), AllocError>
        ensures items { OnOk result (self.new ≡ self.old ++ item_of kind id.now end ∷ []) }
        ensures memory { OnErr result (self.new ≡ self.old) }
    {
        self.marks.reserve(1)?;
        let applied = settle(&mut self.refusals, self.marks.len(), end)?;
        self.ids.push(id)?;
        // There is room for it.
        let _ = self.marks.push(Mark { kind, applied });
        Ok(())
    }

    /// Tells the end of the last item, in place of the one that it has. It takes no memory where the action was not refused.
    /// After want of memory they are as before.
    pub fn set_last_end(&mut self, end: ItemEnd) -> Result<(), AllocError>
        requires { 0 < length self.old }
        ensures items { OnOk result (self.new ≡ with_last_end end self.old) }
        ensures memory { OnErr result (self.new ≡ self.old) }
    {
        let last = self.marks.len() - 1;
        let applied = settle(&mut self.refusals, last, end)?;
        self.marks[last].applied = applied;
        Ok(())
    }
}
