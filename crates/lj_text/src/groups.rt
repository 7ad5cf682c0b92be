//! Hint groups, and lists of them.
ghost use Rattle.std.specs.Prelude.{◌≡◌, ◌==◌, ℕ, List, ◌⊎◌, [], ◌∷◌, ◌++◌, length, slice_get, IfOk, OnOk, OnErr};

use crate::numbers::{MANY, Numbers, NumbersIter};
use std::alloc::{AllocError, Global};
use std::marker::Model;

/// For how many numbers a list that is let go of keeps its room.
const MOST_KEPT_NUMBERS: usize = 64;

/// The hints for one candidate.
#[derive(Debug, Drop)]
pub struct Group {
    pub candidate: u64,
    pub hints: Numbers,
}

impl Model for Group {
    ghost use Rattle.lj_clause.specs.Rat.{HintGroup};
    ghost use Rattle.lj_clause.specs.inner.Codes.{hint_group_code};

    ghost Value = { HintGroup };

    ghost coded = { hint_group_code };

    ghost view = { λ g. record { candidate = g.candidate; hints = g.hints } };
}

/// A group of a list, lent.
#[derive(Debug, Drop)]
pub struct LentGroup<'a> {
    pub candidate: u64,
    pub hints: NumbersIter<'a>,
}

impl<'a> Model for LentGroup<'a> {
    ghost use Rattle.lj_clause.specs.Rat.{HintGroup};
    ghost use Rattle.lj_clause.specs.inner.Codes.{hint_group_code};

    ghost Value = { HintGroup };

    ghost coded = { hint_group_code };

    ghost view = { λ g. record { candidate = g.candidate; hints = g.hints } };
}

/// A list of groups. Two are equal where their contents are.
///
/// A group takes the memory of its hints and of two numbers more in one list of them all, and a list that never had a
/// group takes none.
#[derive(Debug, Drop)]
pub struct Groups {
    alloc: Global,
    row: Option<Box<Row>>,
}

/// Groups whose numbers stand in one list: for each its candidate, how many hints it has, and they.
#[derive(Debug, Drop)]
struct Row {
    numbers: Numbers,
    /// How many groups there are.
    count: usize,
}

impl Model for Groups {
    ghost use Rattle.std.specs.Prelude.{List, []};
    ghost use Rattle.std.specs.Coded.{coded_list};
    ghost use Rattle.lj_clause.specs.Rat.{HintGroup};
    ghost use Rattle.lj_clause.specs.inner.Codes.{hint_group_code};
    ghost use Rattle.lj_text.specs.inner.Groups.{boxed_or};

    ghost Value = { List HintGroup };

    ghost coded = { coded_list hint_group_code };

    ghost view = { λ g. boxed_or [] g.row };
}

impl Model for Row {
    ghost use Rattle.std.specs.Prelude.{List};
    ghost use Rattle.std.specs.Coded.{coded_list};
    ghost use Rattle.lj_clause.specs.Rat.{HintGroup};
    ghost use Rattle.lj_clause.specs.inner.Codes.{hint_group_code};
    ghost use Rattle.lj_text.specs.inner.Groups.{groups_in_row, IsRow};

    ghost Value = { List HintGroup };

    ghost coded = { coded_list hint_group_code };

    ghost view = { λ r. groups_in_row r.count r.numbers };

    ghost invariant = { λ r. IsRow r.count r.numbers };
}

impl Groups {
    /// A list of no groups. Takes no memory. Takes constant time.
    pub fn new(alloc: Global) -> Groups
        ensures { result ≡ [] }
    {
        Groups { alloc, row: None }
    }

    /// Takes a group behind the others: this candidate with these hints. Takes time linear in the hints, but for the
    /// growth of the list and for its first number of 2^32 or more.
    ///
    /// # Errors
    /// [`AllocError`] where a growth was refused, and then nothing has changed.
    pub fn push(&mut self, candidate: u64, hints: NumbersIter<'_>) -> Result<(), AllocError>
        ensures ok { OnOk result
            (self.new ≡ self.old ++ record { candidate = candidate; hints = hints.entry } ∷ []) }
        ensures err { OnErr result (self.new ≡ self.old) }
    {
        match &mut self.row {
            Some(row) => row.push(candidate, hints),
            None => {
                self.row = Some(Box::new(self.alloc, first_group(self.alloc, candidate, hints)?)?);
                Ok(())
            }
        }
    }

    /// How many groups there are. Takes constant time.
    #[inline]
    pub fn len(&self) -> usize
        ensures { result ≡ length self.now }
    {
        match &self.row {
            Some(row) => row.count,
            None => 0,
        }
    }

    /// Whether there is none. Takes constant time.
    #[inline]
    pub fn is_empty(&self) -> bool
        ensures { result ≡ (length self.now == 0) }
    {
        self.len() == 0
    }

    /// The groups, in order. Takes constant time.
    #[inline]
    pub fn iter(&self) -> GroupsIter<'_>
        ensures { result ≡ self.now }
    {
        match &self.row {
            Some(row) if row.count > 0 => GroupsIter {
                rest: row.numbers.iter(),
                count: row.count,
            },
            _ => GroupsIter {
                rest: NumbersIter::empty(),
                count: 0,
            },
        }
    }

    /// A list of its own with the same groups. Takes time linear in their numbers.
    ///
    /// # Errors
    /// [`AllocError`] where a growth was refused.
    pub fn try_clone(&self) -> Result<Groups, AllocError>
        ensures { IfOk result (λ clone. clone ≡ self.now) }
    {
        let row = match &self.row {
            Some(row) => Some(Box::new(self.alloc, row.try_clone()?)?),
            None => None,
        };
        Ok(Groups {
            alloc: self.alloc,
            row,
        })
    }

    /// Lets go of the groups, and keeps the room of their numbers of four bytes.
    #[inline(always)]
    pub(crate) fn clear(&mut self)
        ensures { self.new ≡ [] }
    {
        if let Some(row) = &mut self.row {
            row.clear();
        }
    }

    /// Lets go of the groups and of their room, where they have many numbers. Takes constant time.
    #[inline(always)]
    pub(crate) fn let_go_of_many(&mut self)
        ensures { (self.new ≡ self.old) ⊎ (self.new ≡ []) }
    {
        if let Some(row) = &self.row {
            if row.numbers.len() > MANY {
                self.row = None;
            }
        }
    }

    /// Lets go of the groups, and of their room where it is for more than a few numbers. Takes constant time.
    #[inline]
    pub fn let_go(&mut self)
        ensures { self.new ≡ [] }
    {
        match &mut self.row {
            Some(row) if row.numbers.len() <= MOST_KEPT_NUMBERS => row.clear(),
            _ => self.row = None,
        }
    }
}

/// A row of one group.
///
/// # Errors
/// [`AllocError`] where a growth was refused.
fn first_group(alloc: Global, candidate: u64, hints: NumbersIter<'_>) -> Result<Row, AllocError>
    ensures { IfOk result
        (λ row. row ≡ record { candidate = candidate; hints = hints.entry } ∷ []) }
{
    let mut row = Row {
        numbers: Numbers::with_capacity(alloc, hints.len().saturating_add(2))?,
        count: 0,
    };
    row.push(candidate, hints)?;
    Ok(row)
}

impl Row {
    /// Takes a group behind the others.
    ///
    /// # Errors
    /// [`AllocError`] where a growth was refused, and then nothing has changed.
    fn push(&mut self, candidate: u64, hints: NumbersIter<'_>) -> Result<(), AllocError>
        ensures ok { OnOk result
            (self.new ≡ self.old ++ record { candidate = candidate; hints = hints.entry } ∷ []) }
        ensures err { OnErr result (self.new ≡ self.old) }
    {
        let len = self.numbers.len();
        match put_group(&mut self.numbers, candidate, hints) {
            Ok(()) => {
                self.count += 1;
                Ok(())
            }
            Err(refused) => {
                self.numbers.truncate(len);
                Err(refused)
            }
        }
    }

    /// A row of its own with the same groups.
    ///
    /// # Errors
    /// [`AllocError`] where a growth was refused.
    fn try_clone(&self) -> Result<Row, AllocError>
        ensures { IfOk result (λ clone. clone ≡ self.now) }
    {
        Ok(Row {
            numbers: self.numbers.try_clone()?,
            count: self.count,
        })
    }

    /// Lets go of the groups.
    #[inline(always)]
    fn clear(&mut self)
        ensures { self.new ≡ [] }
    {
        self.numbers.clear();
        self.count = 0;
    }
}

/// Puts the numbers of a group behind the others. Where a growth was refused, some of them may stand there.
///
/// # Errors
/// [`AllocError`] where a growth was refused.
fn put_group(
    numbers: &mut Numbers,
    candidate: u64,
    hints: NumbersIter<'_>,
) -> Result<(), AllocError>
    ensures ok { OnOk result
        (numbers.new ≡ numbers.old ++ candidate ∷ length hints.entry ∷ hints.entry) }
    ensures err { OnErr result ((some : List ℕ) × (numbers.new ≡ numbers.old ++ some)) }
{
    numbers.push(candidate)?;
    numbers.push(hints.len() as u64)?;
    for hint in hints {
        numbers.push(hint)?;
    }
    Ok(())
}

/// The groups of a list that are still to come, in order.
#[derive(Debug, Drop)]
pub struct GroupsIter<'a> {
    rest: NumbersIter<'a>,
    count: usize,
}

impl<'a> Model for GroupsIter<'a> {
    ghost use Rattle.std.specs.Prelude.{List};
    ghost use Rattle.std.specs.Coded.{coded_list};
    ghost use Rattle.lj_clause.specs.Rat.{HintGroup};
    ghost use Rattle.lj_clause.specs.inner.Codes.{hint_group_code};
    ghost use Rattle.lj_text.specs.inner.Groups.{groups_in_row, IsRow};

    ghost Value = { List HintGroup };

    ghost coded = { coded_list hint_group_code };

    ghost view = { λ g. groups_in_row g.count g.rest };

    ghost invariant = { λ g. IsRow g.count g.rest };
}

impl<'a> Iterator for GroupsIter<'a> {
    type Item = LentGroup<'a>;

    ghost use Rattle.std.specs.Iterator.{YieldsFirst, item_count};

    ghost next_gives = { YieldsFirst (λ groups. groups) };

    ghost remaining = { item_count (λ groups. groups) };

    #[inline]
    fn next(&mut self) -> Option<LentGroup<'a>> {
        if self.count == 0 {
            return None;
        }
        let candidate = self.rest.next()?;
        let count = self.rest.next()?;
        let hints = self.rest.take_front(count as usize);
        self.count -= 1;
        Some(LentGroup { candidate, hints })
    }
}

/// The groups of a list, lent, each of which is found by its index in constant time.
#[derive(Debug, Drop)]
pub struct IndexedGroups<'a> {
    row: NumbersIter<'a>,
    /// Where the numbers of each group begin in the row.
    starts: Numbers,
}

impl<'a> Model for IndexedGroups<'a> {
    ghost use Rattle.std.specs.Prelude.{List, map};
    ghost use Rattle.std.specs.Coded.{coded_list};
    ghost use Rattle.lj_clause.specs.Rat.{HintGroup};
    ghost use Rattle.lj_clause.specs.inner.Codes.{hint_group_code};
    ghost use Rattle.lj_text.specs.inner.Groups.{group_from};

    ghost Value = { List HintGroup };

    ghost coded = { coded_list hint_group_code };

    ghost view = { λ g. map (group_from g.row) g.starts };
}

impl<'a> IndexedGroups<'a> {
    /// The groups of a list. Takes time linear in how many there are, and four bytes for each, and up to eight more for
    /// each where their numbers are 2^32 or more.
    ///
    /// # Errors
    /// [`AllocError`] where a growth was refused.
    pub fn new(alloc: Global, groups: &'a Groups) -> Result<IndexedGroups<'a>, AllocError>
        ensures { IfOk result (λ indexed. indexed ≡ groups.now) }
    {
        let GroupsIter { rest: row, count } = groups.iter();
        let mut starts = Numbers::with_capacity(alloc, count)?;
        let mut rest = row.behind(0);
        for _ in 0..count {
            starts.push((row.len() - rest.len()) as u64)?;
            let hints = rest.get(1).unwrap_or(0) as usize;
            rest = rest.behind(2).behind(hints);
        }
        Ok(IndexedGroups { row, starts })
    }

    /// How many groups there are. Takes constant time.
    #[inline]
    pub fn len(&self) -> usize
        ensures { result ≡ length self.now }
    {
        self.starts.len()
    }

    /// The group at an index, counted from 0. Takes constant time.
    #[inline(always)]
    pub fn get(&self, index: usize) -> Option<LentGroup<'a>>
        ensures { result ≡ slice_get self.now index }
    {
        let start = self.starts.get(index)?;
        let front = self.row.behind(start as usize);
        let hints = front.get(1).unwrap_or(0) as usize;
        Some(LentGroup {
            candidate: front.get(0).unwrap_or(0),
            hints: front.behind(2).first(hints),
        })
    }
}
