//! The members of an object.

ghost use Rattle.std.specs.Prelude.{◌≡◌, ◌<◌, ◌≤◌, IfErr, IfOk, OnOk, length, option_map, slice_set};
ghost use Rattle.std.specs.Cmp.Lexicographic.{slice_cmp};
ghost use Rattle.std.specs.List.{insert};
ghost use Rattle.std.specs.Ordering.{nat_cmp};
ghost use Rattle.serde_json.specs.Data.{no_members, put};
ghost use Rattle.serde_json.specs.Find.{get_member};
ghost use Rattle.lent_json.specs.View.{view, members_view};
ghost use Rattle.lent_json.specs.Members.{put_all};
ghost use Rattle.lent_json.specs.declared.value.Lent.{Lent};

use crate::value::Lent;
use std::alloc::{AllocError, Global};
use std::cmp::Ordering;
use std::collections::BTreeMap;

/// So many members are put into their places in a vector: most objects have fewer, and for them the nodes of a map cost more
/// than a few comparisons. More go through a map, since the comparisons would be the square of their number.
const MOST_PLACED: usize = 16;

/// How two names stand by their bytes.
fn compare(a: &str, b: &str) -> Ordering
    ensures { result ≡ slice_cmp nat_cmp a.now b.now }
{
    a.cmp(&b)
}

/// The member of this name, `null` too; none where it is absent.
pub fn member<'v, 'a>(members: &'v [(&'a str, Lent<'a>)], name: &str) -> Option<&'v Lent<'a>>
    ensures { option_map (λ v. view v.now) result ≡ get_member name.now (members_view members.now) }
{
    for (key, value) in members {
        if name == *key {
            return Some(value);
        }
    }
    None
}

/// Where a member of this name goes among members in order: `Ok` with the place of the one that has the name, and else `Err`
/// with the place before which it comes to stand.
fn place_of<'a>(members: &[(&'a str, Lent<'a>)], name: &'a str) -> Result<usize, usize>
    ensures within { IfOk result (λ place. place < length members.now) }
    ensures taken { IfOk result (λ place. (value : Lent)
        → members_view (slice_set members.now place (name.entry, value)) ≡ put name.now (view value) (members_view members.now)) }
    ensures limit { IfErr result (λ place. place ≤ length members.now) }
    ensures free { IfErr result (λ place. (value : Lent)
        → members_view (insert members.now place (name.entry, value)) ≡ put name.now (view value) (members_view members.now)) }
{
    for place in 0..members.len() {
        match compare(name, members[place].0) {
            Ordering::Less => return Err(place),
            Ordering::Equal => return Ok(place),
            Ordering::Greater => {}
        }
    }
    Err(members.len())
}

/// Puts a member into its place among members in order. One of its name makes way for it.
fn put_member<'a>(
    ordered: &mut Vec<(&'a str, Lent<'a>)>,
    name: &'a str,
    value: Lent<'a>,
) -> Result<(), AllocError>
    ensures { OnOk result (members_view ordered.new.items ≡ put name.now (view value.entry) (members_view ordered.old.items)) }
{
    match place_of(ordered.as_slice(), name) {
        Ok(place) => ordered[place] = (name, value),
        Err(place) => ordered.insert(place, (name, value))?,
    }
    Ok(())
}

/// The members in order, each put into its place in a vector.
fn placed<'a>(
    alloc: Global,
    members: Vec<(&'a str, Lent<'a>)>,
) -> Result<Vec<(&'a str, Lent<'a>)>, AllocError>
    ensures { IfOk result (λ ordered. members_view ordered.items ≡ put_all (members_view members.entry.items) no_members) }
{
    let mut ordered = Vec::with_capacity(alloc, members.len())?;
    for (name, value) in members {
        put_member(&mut ordered, name, value)?;
    }
    Ok(ordered)
}

/// The members in order, by way of a map.
fn mapped<'a>(
    alloc: Global,
    members: Vec<(&'a str, Lent<'a>)>,
) -> Result<Vec<(&'a str, Lent<'a>)>, AllocError>
    ensures { IfOk result (λ ordered. members_view ordered.items ≡ put_all (members_view members.entry.items) no_members) }
{
    let mut by_name = BTreeMap::new(alloc);
    for (name, value) in members {
        drop(by_name.insert(name, value)?);
    }
    let mut ordered = Vec::with_capacity(alloc, by_name.len())?;
    for entry in by_name {
        ordered.push(entry)?;
    }
    Ok(ordered)
}

/// Members as they stand in a text, in byte order of their names; of one name the last one stays. Members that stand in
/// order already stay where they are.
pub(crate) fn in_order<'a>(
    alloc: Global,
    members: Vec<(&'a str, Lent<'a>)>,
) -> Result<Vec<(&'a str, Lent<'a>)>, AllocError>
    ensures { IfOk result (λ ordered. members_view ordered.items ≡ put_all (members_view members.entry.items) no_members) }
{
    if members
        .as_slice()
        .is_sorted_by(|a, b| compare(a.0, b.0).is_lt())
    {
        return Ok(members);
    }
    if members.len() <= MOST_PLACED {
        placed(alloc, members)
    } else {
        mapped(alloc, members)
    }
}
