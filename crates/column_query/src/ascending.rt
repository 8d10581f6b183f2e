// Numbers in ascending order.
ghost use Rattle.std.specs.Prelude.{◌≡◌, ℤ};
ghost use Rattle.std.specs.Ordering.{int_cmp};
ghost use Rattle.std.specs.List.Sorted.{IsStrictlySortedBy};
ghost use Rattle.column_query.specs.Numbers.{is_among};

use std::marker::Model;

/// Numbers in ascending order, each once. Contracts see the list.
#[derive(Drop)]
pub struct Ascending {
    numbers: Vec<i64>,
}

impl Model for Ascending {
    ghost use Rattle.std.specs.Prelude.{List, ℤ};
    ghost use Rattle.std.specs.Ordering.{int_cmp};
    ghost use Rattle.std.specs.List.Sorted.{IsStrictlySortedBy};

    ghost Value = { List ℤ };

    ghost view = { λ a. a.numbers.items };

    ghost invariant = { λ a. IsStrictlySortedBy int_cmp a.numbers.items };
}

// By binary search.
fn is_listed(numbers: &[i64], number: i64) -> bool
    requires { IsStrictlySortedBy int_cmp numbers.now }
    ensures { result ≡ is_among numbers.now number }
{
    numbers.binary_search(&number).is_ok()
}

impl Ascending {
    /// The numbers of a list, each once, in time n log n. It keeps 8 bytes for each of them.
    pub fn of(numbers: Vec<i64>) -> Ascending
        ensures { (x : ℤ) → is_among result x ≡ is_among numbers.items x }
    {
        let mut ascending = numbers;
        ascending.sort_unstable();
        ascending.dedup();
        ascending.shrink_to_fit();
        Ascending { numbers: ascending }
    }

    /// The numbers, lent.
    pub fn as_slice(&self) -> &[i64]
        ensures value { result.now ≡ self.now }
        ensures ascending { IsStrictlySortedBy int_cmp self.now }
    {
        self.numbers.as_slice()
    }

    /// Whether the number is one of them.
    pub fn contains(&self, number: i64) -> bool
        ensures { result ≡ is_among self.now number }
    {
        is_listed(self.as_slice(), number)
    }
}
