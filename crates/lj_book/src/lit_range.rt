//! Where the literals of a clause stand in a list.
ghost use Rattle.std.specs.Prelude.{◌≡◌};
ghost use Rattle.lj_book.specs.inner.Ranges.{clause_in, IsRange, u32_range};

use crate::slot_map::Slot;
use lj_clause::{ClauseView, Lit};

/// Where the literals of a clause stand in a list.
#[derive(Clone, Copy)]
pub(crate) struct LitRange {
    /// The place of the first of them.
    pub start: u64,
    /// How many they are.
    pub count: u64,
}

/// The clause whose literals stand at a place.
#[inline]
pub(crate) fn clause_at(lits: &[Lit], range: LitRange) -> ClauseView<'_>
    requires { IsRange lits.now range }
    ensures { result ≡ clause_in lits.now range }
{
    let start = range.start as usize;
    let end = start + range.count as usize;
    ClauseView::new(&lits[start..end])
}

/// The same in four bytes each.
#[derive(Clone, Copy)]
pub(crate) struct U32Range {
    start: u32,
    /// How many they are, and `u32::MAX` for no range.
    count: u32,
}

impl Slot for U32Range {
    type Value = LitRange;

    ghost held = { u32_range };

    #[inline(always)]
    fn empty() -> U32Range {
        U32Range {
            start: 0,
            count: u32::MAX,
        }
    }

    #[inline(always)]
    fn of(range: LitRange) -> Option<U32Range> {
        if range.start > 4_294_967_295 || range.count >= 4_294_967_295 {
            return None;
        }
        Some(U32Range {
            start: range.start as u32,
            count: range.count as u32,
        })
    }

    #[inline(always)]
    fn value(self) -> Option<LitRange> {
        if self.count == u32::MAX {
            return None;
        }
        Some(LitRange {
            start: u64::from(self.start),
            count: u64::from(self.count),
        })
    }
}
