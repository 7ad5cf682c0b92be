//! From which numbers on great variables are used.
ghost use Rattle.std.specs.Prelude.{◌≡◌, ℕ, ℤ, ◌≤◌, [], IfSome, true};
ghost use Rattle.std.specs.FinMap as fin;
ghost use Rattle.lj_clause.specs.Literal.{variable_of};
ghost use Rattle.lj_clause.specs.LiteralSet.{holds};
ghost use Rattle.lj_clause.specs.ClauseMap.{ClauseMap};
ghost use Rattle.lj_book.specs.inner.FirstUses.{AreAfter, AreFirstUses, IsSince};

use lj_clause::{ClauseView, Lit};
use std::alloc::Global;

/// So many of the last first uses are looked through.
const LAST: usize = 64;

/// From which number on clauses hold variables that are greater than all before.
#[derive(Clone, Copy, Debug)]
pub(crate) struct FirstUse {
    /// The greatest variable of the clauses before.
    above: u32,
    /// The number of the clause.
    from: u32,
}

/// The greatest variable that a clause held, and the first uses of those that were the greatest, in order. A prover that brings
/// in variables of its own takes the next one, most often, and soon asks for the clauses that hold it.
///
/// A first use takes eight bytes.
#[derive(Drop)]
pub(crate) struct FirstUses {
    top: u32,
    list: Vec<FirstUse>,
}

impl FirstUses {
    /// No uses of a variable above this one.
    pub(crate) fn new(alloc: Global, top: u32) -> FirstUses
        ensures top { result.top ≡ top }
        ensures none { result.list.items ≡ [] }
    {
        FirstUses {
            top,
            list: Vec::new(alloc),
        }
    }

    /// Takes up the clause of a number, where no clause has a number beyond `last`. Takes amortized constant time.
    #[inline]
    pub(crate) fn add_clause(&mut self, number: u64, last: u64, clause: &ClauseView<'_>)
        ensures { (p : ClauseMap) (next : ℕ) → AreFirstUses p last self.old → last ≤ next
            → number ≤ next → AreFirstUses (fin.insert p number clause.now) next self.new }
    {
        let above = self.top;
        self.top = greatest_variable(clause, above);
        if number <= last {
            self.list.clear();
        } else if self.top > above {
            self.put(above, number);
        }
    }

    /// Takes up that variables above this one are used from a number on. Where a growth is refused, they are looked for as others
    /// are.
    #[inline(never)]
    fn put(&mut self, above: u32, number: u64)
        ensures { (p : ClauseMap) (next : ℕ) → AreFirstUses p next self.old → number ≤ next
            → AreAfter p above number → AreFirstUses p next self.new }
    {
        if let Ok(from) = u32::try_from(number) {
            let _ = self.list.push(FirstUse { above, from });
        }
    }

    /// A number from which on alone clauses hold the literal, if that is known of its variable, and `last` where no clause does.
    /// Takes constant time.
    pub(crate) fn since(&self, lit: Lit, last: u64) -> Option<u64>
        ensures { IfSome result (λ from. (p : ClauseMap) (last : ℕ) → AreFirstUses p last self.now
            → IsSince p lit from) }
    {
        let variable = lit.variable();
        if variable > self.top {
            return Some(last);
        }
        let len = self.list.len();
        for back in 0..LAST.min(len) {
            let first = self.list[len - 1 - back];
            if first.above < variable {
                return Some(u64::from(first.from));
            }
        }
        None
    }
}

/// The greatest of a variable and those of a clause, whose literals are in order by their variables. Takes constant time.
fn greatest_variable(clause: &ClauseView<'_>, top: u32) -> u32
    ensures top { top ≤ result }
    ensures all { (l : ℤ) → holds clause.now l ≡ true → variable_of l ≤ result }
{
    match clause.lits().last() {
        Some(lit) => top.max(lit.variable()),
        None => top,
    }
}
