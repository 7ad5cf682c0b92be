//! Lists of the clauses that hold a literal.
ghost use Rattle.std.specs.Prelude.{◌≡◌, ◌<◌, ◌≤◌, ℕ, IfOk, IfSome, Some, true, length, filter, map, slice_get};
ghost use Rattle.std.specs.FinMap as fin;
ghost use Rattle.lj_clause.specs.Literal.{index_of};
ghost use Rattle.lj_book.specs.Tables.{is_among};
ghost use Rattle.lj_book.specs.Lookup.{is_clause, least_part};
ghost use Rattle.lj_book.specs.inner.Parts.{first_key, is_first, begins_part, lesser};
ghost use Rattle.lj_book.specs.inner.Occurrences.{AreOccurrences, list_at, keys_of, put_if, with_number};
ghost use Rattle.lj_book.specs.inner.Chains.{AreChains, AreLinked, chain, last_at, with_list};

use crate::lent_clauses::LentClauses;
use crate::part::is_part;
use crate::slot_map::SlotMap;
use lj_clause::{Clause, ClauseView, Lit, NoMemory};
use std::alloc::Global;
use std::marker::Model;

/// The place of the list of the empty clauses, which no literal has.
pub(crate) const EMPTY_KEY: u64 = 1;

/// A list of so many numbers stays as it is, however many of their clauses have died.
const MOST_UNSWEPT: usize = 16;

/// How many links have room from the first on: in so much memory, their list stands apart from others.
const FIRST_LINKS: usize = 16_500;

/// How many links there are at most, so that each can be named by four bytes.
const MOST_LINKS: usize = u32::MAX as usize - 2;

/// Every list has fewer numbers than two to the power of this.
const LIMITS: u32 = 32;

/// A number in a list, with the link of the one before it: links are counted from 1, and 0 is none.
#[derive(Clone, Copy, Debug)]
struct Link {
    number: u32,
    before: u32,
}

/// For each literal the numbers that were given to clauses which hold it, under its place, and for the empty clauses
/// theirs. A clause that dies stays listed: its number is taken out when the list is next swept.
///
/// Each number takes eight bytes, and putting it there the time of [`SlotMap::insert`].
#[derive(Drop)]
pub(crate) struct OccurrenceLists {
    alloc: Global,
    links: Vec<Link>,
    /// The last link of each list.
    lasts: SlotMap<u32>,
}

impl Model for OccurrenceLists {
    ghost use Rattle.std.specs.Coded.{coded_ℕ, coded_list};
    ghost use Rattle.std.specs.FinMap as fin;
    ghost use Rattle.lj_book.specs.inner.Occurrences.{Lists};
    ghost use Rattle.lj_book.specs.inner.Chains.{chained, AreChains};

    ghost Value = { Lists };

    ghost coded = { fin.code coded_ℕ (coded_list coded_ℕ) };

    ghost view = { λ o. chained o.links.items o.lasts };

    ghost invariant = { λ o. AreChains o.links.items o.lasts };
}

impl OccurrenceLists {
    /// The lists without a number, with room for the first ones in memory that the system makes page by page as it is written.
    ///
    /// # Errors
    /// [`NoMemory`] where a growth was refused.
    pub(crate) fn reserved(alloc: Global) -> Result<Self, NoMemory>
        ensures { IfOk result (λ lists. lists ≡ fin.empty) }
    {
        Ok(OccurrenceLists {
            alloc,
            links: Vec::with_capacity(alloc, FIRST_LINKS)?,
            lasts: SlotMap::new(alloc),
        })
    }

    /// Puts the number of a clause at the end of its lists. Answers whether it could be put there: where a growth was
    /// refused or there are too many numbers, the lists are of no use. Takes the time of [`SlotMap::insert`] for each literal,
    /// amortized.
    #[inline(always)]
    pub(crate) fn add_clause(&mut self, number: u32, clause: &ClauseView<'_>) -> bool
        ensures { result ≡ true → (k : ℕ) → list_at self.new k
            ≡ put_if (is_among (keys_of clause.now) k) (list_at self.old k) number }
    {
        let lits = clause.lits();
        if lits.is_empty() {
            return self.add(EMPTY_KEY, number);
        }
        for lit in lits {
            if !self.add(lit.index() as u64, number) {
                return false;
            }
        }
        true
    }

    /// Puts a number at the end of a list. Answers whether it could be put there.
    #[inline(always)]
    fn add(&mut self, key: u64, number: u32) -> bool
        ensures { result ≡ true → self.new ≡ with_number self.old key number }
    {
        let count = self.links.len();
        if count >= MOST_LINKS {
            return false;
        }
        let before = last_of(&self.lasts, key) as u32;
        if self.links.push(Link { number, before }).is_err() {
            return false;
        }
        self.lasts.insert(key, count as u64 + 1).is_ok()
    }

    /// The numbers under a place that have a clause. Takes time linear in the numbers there.
    ///
    /// # Errors
    /// [`NoMemory`] where a growth was refused.
    pub(crate) fn living(
        &self,
        alloc: Global,
        key: u64,
        clauses: &LentClauses<'_>,
    ) -> Result<Vec<u64>, NoMemory>
        ensures { IfOk result
            (λ v. v.items ≡ filter (λ n. fin.contains_key clauses.now n) (list_at self.now key)) }
    {
        living_before(alloc, &self.links, last_of(&self.lasts, key), clauses)
    }

    /// The first number under a place whose clause is this one. Takes time linear in the list, and in the literals of the
    /// clause for each of its numbers.
    pub(crate) fn first_same(
        &self,
        key: u64,
        clauses: &LentClauses<'_>,
        wanted: &Clause,
    ) -> Option<u64>
        ensures { result
            ≡ slice_get
            (filter (λ n. is_clause wanted.now (fin.get clauses.now n)) (list_at self.now key))
            0 }
    {
        first_before(&self.links, last_of(&self.lasts, key), clauses, wanted)
    }

    /// The place of the shortest list of a clause. Takes time linear in the clause's literals, for each number of that list.
    pub(crate) fn shortest_key(&self, clause: &Clause) -> u64
        ensures { is_among (keys_of clause.now) result ≡ true }
    {
        let lits = clause.lits();
        let Some(first) = lits.first() else {
            return EMPTY_KEY;
        };
        for power in 0..LIMITS {
            if let Some(key) = self.shortest_within(lits, 1 << power) {
                return key;
            }
        }
        first.index() as u64
    }

    /// The place of the shortest of the literals' lists, if it has so many numbers at most.
    fn shortest_within(&self, lits: &[Lit], limit: usize) -> Option<u64>
        ensures { IfSome result (λ key. is_among (map index_of lits.now) key ≡ true) }
    {
        let mut shortest = None;
        let mut most = limit;
        for lit in lits {
            let key = lit.index() as u64;
            if let Some(length) = length_within(&self.links, last_of(&self.lasts, key), most) {
                shortest = Some(key);
                most = length;
            }
        }
        shortest
    }

    /// The least number whose clause is a part of this one. Looks through the lists of the clause's literals, and that of the
    /// empty clauses, but at a number only in the list of the first literal of its clause. Takes time linear in these lists,
    /// O(log n) for each of the clause's n literals there.
    pub(crate) fn least_part(&self, clauses: &LentClauses<'_>, wanted: &Clause) -> Option<u64>
        ensures { (bound : ℕ) → AreOccurrences self.now (fin.get clauses.now) bound
            → result ≡ least_part clauses.now wanted.now }
    {
        let mut least = self.first_part(&None, clauses, wanted);
        for lit in wanted.lits() {
            least = lesser(least, self.first_part(&Some(*lit), clauses, wanted));
        }
        least
    }

    /// The first number under the place of a literal whose clause begins with it and is a part of this one; without a literal,
    /// the first of an empty clause.
    fn first_part(
        &self,
        first: &Option<Lit>,
        clauses: &LentClauses<'_>,
        wanted: &Clause,
    ) -> Option<u64>
        ensures { result ≡ slice_get
            (filter (λ n. begins_part wanted.now first.now (fin.get clauses.now n))
            (list_at self.now (first_key first.now))) 0 }
    {
        let key = first_key(first);
        part_before(
            &self.links,
            last_of(&self.lasts, key),
            clauses,
            first,
            wanted,
        )
    }

    /// Takes the numbers without a clause out of a list, where they are more than half of it and it isn't short. Answers
    /// whether a growth was granted: where it wasn't, the lists are of no use.
    ///
    /// Takes time linear in the numbers of the list, and memory only where some are taken out.
    pub(crate) fn sweep(&mut self, key: u64, clauses: &LentClauses<'_>) -> bool
        ensures { (bound : ℕ) → AreOccurrences self.old (fin.get clauses.now) bound
            → result ≡ true → AreOccurrences self.new (fin.get clauses.now) bound }
    {
        let last = last_of(&self.lasts, key);
        if is_within(&self.links, last, MOST_UNSWEPT)
            || does_half_live(&self.links, last, clauses)
        {
            return true;
        }
        let Ok(living) = living_before(self.alloc, &self.links, last, clauses) else {
            return false;
        };
        self.relink(key, &living)
    }

    /// Puts these numbers into a list, in place of what it has. Answers whether a growth was granted. Takes time linear in
    /// the numbers.
    fn relink(&mut self, key: u64, numbers: &[u64]) -> bool
        ensures { result ≡ true → (k : ℕ)
            → list_at self.new k ≡ with_list self.old key numbers.now k }
    {
        let _ = self.lasts.remove(key);
        for number in numbers {
            let Ok(narrow) = u32::try_from(*number) else {
                return false;
            };
            if !self.add(key, narrow) {
                return false;
            }
        }
        true
    }
}

/// The place where the clauses with this first literal are listed, and the empty ones.
fn first_key(first: &Option<Lit>) -> u64
    ensures { result ≡ first_key first.now }
{
    match first {
        Some(lit) => lit.index() as u64,
        None => EMPTY_KEY,
    }
}

/// The last link under a place, and 0 where there is none.
#[inline]
fn last_of(lasts: &SlotMap<u32>, key: u64) -> u64
    ensures { result ≡ last_at lasts.now key }
{
    match lasts.get(key) {
        Some(last) => last,
        None => 0,
    }
}

/// The numbers with a clause among those of this link and of all before it, the oldest first. Takes time linear in the links
/// that it passes by.
///
/// # Errors
/// [`NoMemory`] where a growth was refused.
fn living_before(
    alloc: Global,
    links: &[Link],
    last: u64,
    clauses: &LentClauses<'_>,
) -> Result<Vec<u64>, NoMemory>
    requires linked { AreLinked links.now }
    requires there { last ≤ length links.now }
    ensures { IfOk result
        (λ v. v.items ≡ filter (λ n. fin.contains_key clauses.now n) (chain links.now last)) }
{
    let mut living = Vec::new(alloc);
    let mut at = last as usize;
    while at > 0 {
        let link = links[at - 1];
        let number = u64::from(link.number);
        if clauses.contains_key(number) {
            living.push(number)?;
        }
        at = link.before as usize;
    }
    living.reverse();
    Ok(living)
}

/// The oldest number whose clause is this one among those of this link and of all before it. Takes time linear in the links
/// that it passes by, and in the literals of the clause for each that has one.
fn first_before(
    links: &[Link],
    last: u64,
    clauses: &LentClauses<'_>,
    wanted: &Clause,
) -> Option<u64>
    requires linked { AreLinked links.now }
    requires there { last ≤ length links.now }
    ensures { result
        ≡ slice_get
        (filter (λ n. is_clause wanted.now (fin.get clauses.now n)) (chain links.now last))
        0 }
{
    let mut first = None;
    let mut at = last as usize;
    while at > 0 {
        let link = links[at - 1];
        let number = u64::from(link.number);
        if let Some(clause) = clauses.get(number) {
            if clause.same(wanted) {
                first = Some(number);
            }
        }
        at = link.before as usize;
    }
    first
}

/// The oldest number, among those of this link and of all before it, whose clause begins so and is a part of this one. Takes
/// time linear in the links that it passes by, and that of [`is_part`] for each whose clause begins so.
fn part_before(
    links: &[Link],
    last: u64,
    clauses: &LentClauses<'_>,
    first: &Option<Lit>,
    wanted: &Clause,
) -> Option<u64>
    requires linked { AreLinked links.now }
    requires there { last ≤ length links.now }
    ensures { result ≡ slice_get
        (filter (λ n. begins_part wanted.now first.now (fin.get clauses.now n))
        (chain links.now last)) 0 }
{
    let mut oldest = None;
    let mut at = last as usize;
    while at > 0 {
        let link = links[at - 1];
        let number = u64::from(link.number);
        if let Some(clause) = clauses.get(number) {
            if begins_part(wanted, first, &clause) {
                oldest = Some(number);
            }
        }
        at = link.before as usize;
    }
    oldest
}

/// Whether the clause begins with this literal, or is empty where there is none, and is a part of the wanted one.
fn begins_part(wanted: &Clause, first: &Option<Lit>, clause: &ClauseView<'_>) -> bool
    ensures { result ≡ begins_part wanted.now first.now (Some clause.now) }
{
    begins_with(clause.lits(), first) && is_part(wanted, clause)
}

/// Whether this is the first of the literals, or there is neither.
fn begins_with(lits: &[Lit], first: &Option<Lit>) -> bool
    ensures { result ≡ is_first first.now (slice_get lits.now 0) }
{
    match (first, lits) {
        (Some(wanted), [lit, ..]) => lit == wanted,
        (None, []) => true,
        _ => false,
    }
}

/// The lesser of the numbers that there are.
fn lesser(one: Option<u64>, other: Option<u64>) -> Option<u64>
    ensures { result ≡ lesser one other }
{
    match (one, other) {
        (Some(n), Some(m)) => Some(n.min(m)),
        (Some(n), None) => Some(n),
        (None, _) => other,
    }
}

/// Whether at least half of the numbers of this link and of all before it have a clause. Takes time linear in the links that it
/// passes by.
fn does_half_live(links: &[Link], last: u64, clauses: &LentClauses<'_>) -> bool
    requires linked { AreLinked links.now }
    requires there { last ≤ length links.now }
{
    let (mut living, mut dead) = (0_usize, 0_usize);
    let mut at = last as usize;
    while at > 0 {
        let link = links[at - 1];
        if clauses.contains_key(u64::from(link.number)) {
            living = living.saturating_add(1);
        } else {
            dead = dead.saturating_add(1);
        }
        at = link.before as usize;
    }
    dead <= living
}

/// Whether there are so many links at most, with this one and all before it.
fn is_within(links: &[Link], last: u64, limit: usize) -> bool
    requires linked { AreLinked links.now }
    requires there { last ≤ length links.now }
{
    length_within(links, last, limit).is_some()
}

/// How many links there are with this one and all before it, if so many at most. Takes time linear in the links that it
/// passes by.
fn length_within(links: &[Link], last: u64, limit: usize) -> Option<usize>
    requires linked { AreLinked links.now }
    requires there { last ≤ length links.now }
{
    let mut at = last as usize;
    for length in 0..limit {
        if at == 0 {
            return Some(length);
        }
        at = links[at - 1].before as usize;
    }
    if at == 0 { Some(limit) } else { None }
}
