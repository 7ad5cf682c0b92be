//! Clauses.
ghost use Rattle.std.specs.Prelude.{◌≡◌, ◌↔◌, ℕ, nat_le, IsTrue, IfOk, OnOk, OnErr};
ghost use Rattle.std.specs.List.Sorted.{IsStrictlySortedBy};
ghost use Rattle.lj_clause.specs.Literal.{lit_cmp};
ghost use Rattle.lj_clause.specs.LiteralSet.{holds, literals, from_literals};
ghost use Rattle.lj_clause.specs.ClauseMap.{names_up_to};
ghost use Rattle.lj_clause.specs.Renaming.{image};
ghost use Rattle.lj_clause.specs.inner.LiteralList.{literals_in};

use crate::clause_view::ClauseView;
use crate::in_order::eight_in_order;
use crate::lit::Lit;
use crate::literal_list::{LiteralList, up_to_three};
use crate::memory::NoMemory;
use crate::renames::{Renames, all_stay, renamed_lits};
use std::alloc::Global;
use std::marker::Model;

/// A clause: the finite set of its literals. It may hold a literal and its negation.
#[derive(Debug, Drop)]
pub struct Clause {
    /// Each literal once, in strict order.
    lits: LiteralList,
}

impl Model for Clause {
    ghost use Rattle.std.specs.List.Sorted.{IsStrictlySortedBy};
    ghost use Rattle.lj_clause.specs.Literal.{lit_cmp};
    ghost use Rattle.lj_clause.specs.LiteralSet.{LiteralSet, from_literals};
    ghost use Rattle.lj_clause.specs.inner.Codes.{literal_set_code};
    ghost use Rattle.lj_clause.specs.inner.LiteralList.{literals_in};

    ghost Value = { LiteralSet };

    ghost coded = { literal_set_code };

    ghost view = { λ c. from_literals (literals_in c.lits) };

    ghost invariant = { λ c. IsStrictlySortedBy lit_cmp (literals_in c.lits) };
}

impl Clause {
    /// The set of these literals, whatever their order and repeats. Takes linear time where the literals stand in order,
    /// and O(n log n) time otherwise.
    ///
    /// # Errors
    /// [`NoMemory`] where a growth was refused.
    #[inline(always)]
    pub fn from_lits(alloc: Global, lits: &[Lit]) -> Result<Clause, NoMemory>
        ensures { IfOk result (λ clause. clause ≡ from_literals lits.now) }
    {
        let lits = match LiteralList::inline(lits) {
            Some(inline) => inline,
            None => many(alloc, &mut Vec::from_slice(alloc, lits)?)?,
        };
        Ok(Clause { lits })
    }

    /// The same of a list that may lose its order. It takes no memory for the list. Takes linear time where the literals stand
    /// in order, and O(n log n) time otherwise.
    ///
    /// # Errors
    /// [`NoMemory`] where a growth was refused.
    #[inline(always)]
    pub fn from_scratch(alloc: Global, lits: &mut Vec<Lit>) -> Result<Clause, NoMemory>
        ensures { IfOk result (λ clause. clause ≡ from_literals lits.old.items) }
    {
        let lits = match LiteralList::inline(lits) {
            Some(inline) => inline,
            None => many(alloc, lits)?,
        };
        Ok(Clause { lits })
    }

    /// Becomes the set of these literals, whatever their order and repeats, in the memory that it has, where it can. Takes
    /// linear time where more than eight literals stand in order, O(n log n) time where they don't, and constant time for others.
    ///
    /// # Errors
    /// [`NoMemory`] where a growth was refused, and then nothing has changed.
    #[inline(always)]
    pub fn put(&mut self, alloc: Global, lits: &mut Vec<Lit>) -> Result<(), NoMemory>
        ensures ok { OnOk result (self.new ≡ from_literals lits.old.items) }
        ensures err { OnErr result (self.new ≡ self.old) }
    {
        let count = lits.len();
        if count > 3 {
            return self.put_more(alloc, lits);
        }
        if let Some(three) = up_to_three(lits) {
            self.lits.put_inline(count, three);
            return Ok(());
        }
        self.put_any(alloc, lits)
    }

    /// The same of more than three.
    #[inline(never)]
    fn put_more(&mut self, alloc: Global, lits: &mut Vec<Lit>) -> Result<(), NoMemory>
        ensures ok { OnOk result (self.new ≡ from_literals lits.old.items) }
        ensures err { OnErr result (self.new ≡ self.old) }
    {
        let count = lits.len();
        if count <= 8 {
            if let Some(eight) = eight_in_order(lits) {
                return self.lits.put_eight(alloc, count, eight);
            }
        }
        self.put_any(alloc, lits)
    }

    /// The same of any.
    #[inline(never)]
    fn put_any(&mut self, alloc: Global, lits: &mut Vec<Lit>) -> Result<(), NoMemory>
        ensures ok { OnOk result (self.new ≡ from_literals lits.old.items) }
        ensures err { OnErr result (self.new ≡ self.old) }
    {
        self.lits = many(alloc, lits)?;
        Ok(())
    }

    /// The set of these literals, which are in strict order. Takes O(n) time.
    ///
    /// # Errors
    /// [`NoMemory`] where a growth was refused.
    pub(crate) fn from_rising(alloc: Global, lits: &[Lit]) -> Result<Clause, NoMemory>
        requires { IsStrictlySortedBy lit_cmp lits.now }
        ensures { IfOk result (λ clause. clause ≡ from_literals lits.now) }
    {
        let lits = match LiteralList::inline(lits) {
            Some(inline) => inline,
            None => LiteralList::many(alloc, lits)?,
        };
        Ok(Clause { lits })
    }

    /// Whether the literal is in the clause. Takes O(log n) time.
    pub fn holds(&self, lit: Lit) -> bool
        ensures { result ≡ holds self.now lit }
    {
        found(self.lits.as_slice(), lit)
    }

    /// Whether the two clauses are the same set. Takes linear time.
    pub fn same(&self, other: &Clause) -> bool
        ensures { IsTrue result ↔ (self.now ≡ other.now) }
    {
        are_same(self.lits.as_slice(), other.lits.as_slice())
    }

    /// The literals, each once, in their order. Takes constant time.
    #[inline]
    pub fn lits(&self) -> &[Lit]
        ensures { result.now ≡ literals self.now }
    {
        self.lits.as_slice()
    }

    /// The clause, lent. Takes constant time.
    #[inline]
    pub fn view(&self) -> ClauseView<'_>
        ensures { result ≡ self.now }
    {
        ClauseView::new(self.lits.as_slice())
    }

    /// The same clause for another holder, which shares its literals. Takes constant time.
    ///
    /// # Errors
    /// [`NoMemory`] where the share was refused.
    pub fn try_clone(&self) -> Result<Clause, NoMemory>
        ensures { IfOk result (λ clause. clause ≡ self.now) }
    {
        Ok(Clause {
            lits: self.lits.try_clone()?,
        })
    }

    /// The greatest variable of its literals, 0 if it has none. Takes constant time.
    pub fn max_variable(&self) -> u32
        ensures { (v : ℕ) → names_up_to v self.now ≡ nat_le result v }
    {
        match self.lits().last() {
            Some(lit) => lit.variable(),
            None => 0,
        }
    }

    /// The clause with its variables renamed. It shares the literals if none changes. Takes the time of
    /// [`Renames::variable`] for each literal, and O(n log n) time if one changes.
    ///
    /// # Errors
    /// [`NoMemory`] where a growth was refused.
    pub fn renamed<R: Renames>(&self, alloc: Global, renaming: &R) -> Result<Clause, NoMemory>
        ensures { IfOk result (λ clause. clause ≡ image (R.renaming renaming.now) self.now) }
    {
        if all_stay(renaming, self.lits()) {
            return self.try_clone();
        }
        let mut lits = renamed_lits(alloc, renaming, self.lits())?;
        Clause::from_scratch(alloc, &mut lits)
    }
}

/// The literals of a list that may be long, each once, in strict order.
///
/// # Errors
/// [`NoMemory`] where a growth was refused.
fn many(alloc: Global, lits: &mut Vec<Lit>) -> Result<LiteralList, NoMemory>
    ensures rising { IfOk result (λ list. IsStrictlySortedBy lit_cmp (literals_in list)) }
    ensures same { IfOk result
        (λ list. from_literals (literals_in list) ≡ from_literals lits.old.items) }
{
    put_in_order(lits);
    LiteralList::many(alloc, lits)
}

/// Puts the literals in strict order, each once.
#[inline]
fn put_in_order(lits: &mut Vec<Lit>)
    ensures rising { IsStrictlySortedBy lit_cmp lits.new.items }
    ensures same { from_literals lits.new.items ≡ from_literals lits.old.items }
{
    lits.sort_unstable();
    lits.dedup();
}

/// Whether a list in strict order has the literal.
pub(crate) fn found(lits: &[Lit], lit: Lit) -> bool
    requires { IsStrictlySortedBy lit_cmp lits.now }
    ensures { result ≡ holds (from_literals lits.now) lit }
{
    lits.binary_search(&lit).is_ok()
}

/// Whether the two lists are the same.
#[inline]
pub(crate) fn are_same(lits: &[Lit], others: &[Lit]) -> bool
    ensures { IsTrue result ↔ (lits.now ≡ others.now) }
{
    lits == others
}
