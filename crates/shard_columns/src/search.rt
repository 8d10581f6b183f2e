// Binary searches in ascending lists.
ghost use Rattle.std.specs.Prelude.{◌≡◌, slice_range, ◌≤◌, ◌&&◌, length, filter, nat_le, nat_lt, true, false, IsTrue, IfSome, IfNone, slice_get, Some, find, ◌==◌, Contains, map};
ghost use Rattle.std.specs.List.{AllWithin};
ghost use Rattle.std.specs.List.Sorted.{IsStrictlyIncreasing, IsStrictlySortedBy};
ghost use Rattle.std.specs.Ordering.{nat_cmp};
ghost use Rattle.std.specs.Cmp.Lexicographic.{slice_cmp};
ghost use Rattle.shard_columns.specs.Bounds.{AreBelow, AreBefore};

use crate::values::Held;
use packed_texts::PackedTexts;

/// A part of a list, from `start` to before `end`.
#[derive(Clone, Copy)]
pub struct Part {
    pub start: usize,
    pub end: usize,
}

// Whether so many of ascending numbers in front are below the bound.
fn front_is_below(numbers: &[u32], bound: u32, count: usize) -> bool
    requires ascend { IsStrictlyIncreasing numbers.now }
    requires within { count ≤ length numbers.now }
    ensures { IsTrue result → AllWithin (λ n. nat_lt n bound ≡ true) numbers.now 0 count }
{
    if count == 0 {
        return true;
    }
    numbers[count - 1] < bound
}

// Whether the ascending numbers from this place on are not below the bound.
fn rest_is_not_below(numbers: &[u32], bound: u32, count: usize) -> bool
    requires ascend { IsStrictlyIncreasing numbers.now }
    requires within { count ≤ length numbers.now }
    ensures { IsTrue result → AllWithin (λ n. nat_lt n bound ≡ false) numbers.now count (length numbers.now) }
{
    if count == numbers.len() {
        return true;
    }
    numbers[count] >= bound
}

// How many of ascending numbers are below the bound: as many as the guess where that is right, which takes constant time.
fn count_below(numbers: &[u32], bound: u32, guess: usize) -> usize
    requires ascend { IsStrictlyIncreasing numbers.now }
    ensures within { result ≤ length numbers.now }
    ensures below { AreBelow numbers.now bound result }
{
    if guess <= numbers.len() {
        let front = front_is_below(numbers, bound, guess);
        let rest = rest_is_not_below(numbers, bound, guess);
        if front && rest {
            return guess;
        }
    }
    numbers.partition_point(|number| *number < bound)
}

fn part_between(numbers: &[u32], from: u32, to: u32, guess: Part) -> Part
    requires ascend { IsStrictlyIncreasing numbers.now }
    requires in_order { from ≤ to }
    ensures within { (result.start ≤ result.end) × (result.end ≤ length numbers.now) }
    ensures between { slice_range numbers.now result.start result.end ≡ filter (λ n. nat_le from n && nat_lt n to) numbers.now }
{
    let start = count_below(numbers, from, guess.start);
    let end = count_below(numbers, to, guess.end);
    Part { start, end }
}

/// The part of ascending numbers that are at least `from` and below `to`, in constant time where the guess is right.
pub fn numbers_between(numbers: &[u32], from: u32, to: u32, guess: Part) -> &[u32]
    requires ascend { IsStrictlyIncreasing numbers.now }
    requires in_order { from ≤ to }
    ensures { result.now ≡ filter (λ n. nat_le from n && nat_lt n to) numbers.now }
{
    let part = part_between(numbers, from, to, guess);
    &numbers[part.start..part.end]
}

/// The entry of a row among entries that ascend by row.
pub fn find_held(held: &[Held], row: u32) -> Option<Held>
    requires { IsStrictlyIncreasing (map (λ h. h.row) held.now) }
    ensures { result ≡ find (λ h. h.row == row) held.now }
{
    let place = held.partition_point(|one| one.row < row);
    let one = *held.get(place)?;
    if one.row == row { Some(one) } else { None }
}

// How many of these words, which ascend by their bytes, are before a word.
fn count_before(words: &PackedTexts, word: &[u8]) -> usize
    requires { IsStrictlySortedBy (slice_cmp nat_cmp) words.now }
    ensures within { result ≤ length words.now }
    ensures before { AreBefore words.now word.now result }
{
    let mut start = 0;
    let mut end = words.len();
    while start < end {
        let middle = start + (end - start) / 2;
        if words.get(middle).as_bytes().cmp(&word).is_lt() {
            start = middle + 1;
        } else {
            end = middle;
        }
    }
    start
}

/// The place of a word among these, which are distinct and ascend by their bytes.
pub fn find_word(words: &PackedTexts, word: &[u8]) -> Option<usize>
    requires { IsStrictlySortedBy (slice_cmp nat_cmp) words.now }
    ensures found { IfSome result (λ place. slice_get words.now place ≡ Some word.now) }
    ensures absent { IfNone result (¬ (Contains words.now word.now)) }
{
    let place = count_before(words, word);
    if place == words.len() {
        return None;
    }
    if words.get(place).as_bytes() != word {
        return None;
    }
    Some(place)
}
