// Marks on numbers, a bit for each.
ghost use Rattle.std.specs.Prelude.{◌≡◌, ◌+◌, ◌*◌, ◌<◌, length, IfOk, IfSome};
ghost use Rattle.std.specs.Ordering.{int_cmp};
ghost use Rattle.std.specs.List.Sorted.{IsStrictlySortedBy};
ghost use Rattle.column_query.specs.NumberSets.{has_bit as has_bit_at, is_marked as is_marked_in, SetsBit, AreWithin, AreMarked};

use std::alloc::{AllocError, Global};

/// Which numbers are marked, of those from `first` on: a bit for each, in words of 64 bits.
#[derive(Drop)]
pub struct Marks {
    first: i64,
    bits: Vec<u64>,
}

fn has_bit(bits: &[u64], place: u64) -> bool
    ensures { result ≡ has_bit_at bits.now place }
{
    let word = (place / 64) as usize;
    word < bits.len() && (bits[word] >> (place % 64)) & 1 == 1
}

fn set_bit(bits: &mut Vec<u64>, place: u64)
    requires { place < 64 * length bits.old.items }
    ensures many { length bits.new.items ≡ length bits.old.items }
    ensures set { SetsBit bits.old.items place bits.new.items }
{
    let word = (place / 64) as usize;
    bits[word] |= 1u64 << (place % 64);
}

/// Whether the number is marked.
pub fn is_marked(marks: &Marks, number: i64) -> bool
    ensures { result ≡ is_marked_in marks.now number }
{
    if number < marks.first {
        return false;
    }
    has_bit(marks.bits.as_slice(), number.abs_diff(marks.first))
}

// Marks on the numbers, which all have a bit in so many words, of which the first is that of `first`.
fn marks_from(alloc: Global, numbers: &[i64], first: i64, words: usize) -> Result<Marks, AllocError>
    requires { AreWithin first words numbers.now }
    ensures { IfOk result (λ marks. AreMarked numbers.now marks) }
{
    let mut bits = vec![in alloc; 0; words]?;
    for number in numbers {
        set_bit(&mut bits, number.abs_diff(first));
    }
    Ok(Marks { first, bits })
}

/// Marks on ascending numbers, where they take no more memory than the list does.
pub fn marks_of(alloc: Global, numbers: &[i64]) -> Result<Option<Marks>, AllocError>
    requires { IsStrictlySortedBy int_cmp numbers.now }
    ensures { IfOk result (λ found. IfSome found (λ marks. AreMarked numbers.now marks)) }
{
    if numbers.is_empty() {
        return Ok(None);
    }
    let first = numbers[0];
    let span = numbers[numbers.len() - 1].abs_diff(first);
    let words = (span / 64) as usize + 1;
    if words > numbers.len() {
        return Ok(None);
    }
    Ok(Some(marks_from(alloc, numbers, first, words)?))
}
