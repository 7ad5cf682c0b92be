//! The clauses that die when numbers are given up.
ghost use Rattle.std.specs.Prelude.{◌≡◌, ℕ, filter, not};
ghost use Rattle.std.specs.List.Sorted.{IsStrictlySortedBy};
ghost use Rattle.std.specs.Ordering.{nat_cmp};
ghost use Rattle.lj_book.specs.Tables.{is_among, has_holder};

use crate::seat_tables::SeatTables;

/// The numbers, each once, rising. Takes linear time where they rise already, and O(n log n) time otherwise.
pub(crate) fn rising(mut numbers: Vec<u64>) -> Vec<u64>
    ensures rising { IsStrictlySortedBy nat_cmp result.items }
    ensures same { (n : ℕ) → is_among result.items n ≡ is_among numbers.items n }
{
    numbers.sort_unstable();
    numbers.dedup();
    numbers
}

/// Those of the numbers that no seat holds, in their order. Takes O(log n) time for each number.
pub(crate) fn without_holder(tables: &SeatTables, mut numbers: Vec<u64>) -> Vec<u64>
    ensures { result.items ≡ filter (λ n. not (has_holder tables.now n)) numbers.items }
{
    numbers.retain(|n| !tables.has_holder(*n));
    numbers
}
