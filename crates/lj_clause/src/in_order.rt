//! Few literals, put in order without a branch, since nothing foretells their order.
ghost use Rattle.std.specs.Prelude.{◌≡◌, ◌<◌, ◌≤◌, true, IsPermutation, length, take, IfSome};
ghost use Rattle.std.specs.List.Sorted.{IsStrictlySortedBy};
ghost use Rattle.lj_clause.specs.Literal.{lit_cmp};
ghost use Rattle.lj_clause.specs.LiteralSet.{from_literals};
ghost use Rattle.lj_clause.specs.inner.InOrder.{filler, IsFilledUp, IsInOrder};

use crate::lit::{Lit, MAX_VARIABLE};

/// The literal that fills up a list of few: the greatest, so that it stands behind them.
#[inline(always)]
fn filler() -> Lit
    ensures { result ≡ filler }
{
    Lit::of(MAX_VARIABLE, true)
}

/// The literals, and behind them as many fillers as there is room for. The list itself comes back as it was: none where its
/// growth was refused.
#[inline(always)]
fn filled_up<const N: usize>(lits: &mut Vec<Lit>) -> Option<[Lit; N]>
    requires { length lits.old.items ≤ N }
    ensures filled { IfSome result (λ scratch. IsFilledUp lits.old.items scratch) }
    ensures same { lits.new.items ≡ lits.old.items }
{
    let count = lits.len();
    if lits.extend_from_slice(&[filler(); N]).is_err() {
        return None;
    }
    let scratch = lits.first_chunk::<N>().copied();
    lits.truncate(count);
    scratch
}

/// Puts the smaller of the literals at two places at the first of them.
#[inline(always)]
fn exchange(lits: &mut [Lit], first: usize, last: usize)
    requires { (first < length lits.old) × (last < length lits.old) }
    ensures { IsPermutation lits.old lits.new }
{
    if lits[last] < lits[first] {
        lits.swap(first, last);
    }
}

/// Whether the first literals, so many, are in strict order, and the others fillers.
#[inline(always)]
fn are_in_order(lits: &[Lit], count: usize) -> bool
    ensures { result ≡ true → IsInOrder count lits.now }
{
    let filler = filler();
    let mut right = true;
    for i in 0..lits.len() {
        right &= if count <= i {
            lits[i] == filler
        } else {
            i == 0 || lits[i - 1] < lits[i]
        };
    }
    right
}

/// Whether none of eight literals is smaller than the one before it. Those that are get counted, without a branch for each.
#[inline(always)]
fn are_rising(lits: &[Lit; 8]) -> bool {
    let mut falls = 0u32;
    for i in 1..8 {
        falls += u32::from(lits[i] < lits[i - 1]);
    }
    falls == 0
}

/// Up to eight literals in strict order, and fillers: none where one of them stands twice, or memory was
/// refused. Those that stand in order are left so. Takes constant time.
#[inline(always)]
pub(crate) fn eight_in_order(lits: &mut Vec<Lit>) -> Option<[Lit; 8]>
    requires { length lits.old.items ≤ 8 }
    ensures rising { IfSome result
        (λ scratch. IsStrictlySortedBy lit_cmp (take (length lits.old.items) scratch)) }
    ensures set { IfSome result
        (λ scratch. from_literals (take (length lits.old.items) scratch)
        ≡ from_literals lits.old.items) }
    ensures same { lits.new.items ≡ lits.old.items }
{
    let mut scratch = filled_up::<8>(lits)?;
    if !are_rising(&scratch) {
        order_eight(&mut scratch);
    }
    if are_in_order(&scratch, lits.len()) {
        Some(scratch)
    } else {
        None
    }
}

/// Exchanges that put any eight literals in order.
#[inline(always)]
fn order_eight(lits: &mut [Lit; 8])
    ensures { IsPermutation lits.old lits.new }
{
    exchange(lits, 0, 2);
    exchange(lits, 1, 3);
    exchange(lits, 4, 6);
    exchange(lits, 5, 7);
    exchange(lits, 0, 4);
    exchange(lits, 1, 5);
    exchange(lits, 2, 6);
    exchange(lits, 3, 7);
    exchange(lits, 0, 1);
    exchange(lits, 2, 3);
    exchange(lits, 4, 5);
    exchange(lits, 6, 7);
    exchange(lits, 2, 4);
    exchange(lits, 3, 5);
    exchange(lits, 1, 4);
    exchange(lits, 3, 6);
    exchange(lits, 1, 2);
    exchange(lits, 3, 4);
    exchange(lits, 5, 6);
}
