//! The tables of the seats.
ghost use Rattle.std.specs.Prelude.{◌≡◌, ℕ, ◌+◌, ◌^◌, ◌<◌, ◌≤◌, IsTrue, ◌↔◌, OnOk, OnErr, IfOk, is_some, option_copied, filter_map, Some, None, replicate, length, true, false, ◌==◌, ◌||◌};
ghost use Rattle.std.specs.FinMap as fin;
ghost use Rattle.lj_book.specs.Tables.{up_to, table_of, is_here, joint_of, is_bound, with_table, without_keys, without_seat, is_among, has_holder, keys_lost};
ghost use Rattle.lj_book.specs.inner.Tables.{own_numbers};
ghost use Rattle.lj_book.specs.inner.Holders.{count_in, count_at, holders_of, one_if_at};

use crate::counts::Counts;
use crate::dying::rising;
use crate::seat_table::SeatTable;
use lj_clause::NoMemory;
use lj_text::Numbers;
use std::alloc::Global;
use std::marker::Model;
use std::mem::replace;

/// For how many joint numbers a deletion makes room at once.
const FIRST_JOINTS: usize = 1_024;

/// The table of each seat, from own numbers to joint numbers, and none for a seat that has left.
///
/// A call on a number takes the time of [`SeatTable`]'s call.
#[derive(Drop)]
pub(crate) struct SeatTables {
    seats: Vec<Option<SeatTable>>,
    /// How many own numbers of all seats are bound to each joint number, so that none has to be looked for.
    holders: Counts,
}

impl Model for SeatTables {
    ghost use Rattle.lj_book.specs.Tables.{Tables};
    ghost use Rattle.lj_book.specs.inner.Codes.{tables_code};
    ghost use Rattle.lj_book.specs.inner.Holders.{AreHolders};

    ghost Value = { Tables };

    ghost coded = { tables_code };

    ghost view = { λ t. t.seats.items };

    ghost invariant = { λ t. AreHolders t.seats.items t.holders };
}

impl SeatTables {
    /// The tables of this many seats, in each of which the numbers from 1 on, as many as there are clauses, are bound
    /// to themselves. Takes constant time for each seat and each clause, and room for a byte for each clause and seat
    /// beside what the counts take.
    ///
    /// # Errors
    /// [`NoMemory`] where a growth was refused.
    pub(crate) fn open(alloc: Global, seats: u32, clauses: u64) -> Result<SeatTables, NoMemory>
        requires { clauses < 2 ^ 63 }
        ensures { IfOk result (λ tables. tables ≡ replicate seats (Some (up_to clauses))) }
    {
        Ok(SeatTables {
            seats: same_tables(alloc, seats, clauses)?,
            holders: Counts::up_to(alloc, clauses, seats)?,
        })
    }

    /// The number of seats, also of those that have left.
    pub(crate) fn len(&self) -> usize
        ensures { result ≡ length self.now }
    {
        self.seats.len()
    }

    /// Whether there is such a seat, and it hasn't left.
    pub(crate) fn is_here(&self, seat: u32) -> bool
        ensures { result ≡ is_here self.now seat }
    {
        table_in(&self.seats, seat).is_some()
    }

    /// The table of a seat that hasn't left.
    pub(crate) fn table(&self, seat: u32) -> Option<&SeatTable>
        ensures { option_copied result ≡ table_of self.now seat }
    {
        table_in(&self.seats, seat)
    }

    /// The joint number that the seat's own number is bound to.
    #[inline(always)]
    pub(crate) fn joint(&self, seat: u32, own: u64) -> Option<u64>
        ensures { result ≡ joint_of self.now seat own }
    {
        let table = table_in(&self.seats, seat)?;
        table.get(own)
    }

    /// Whether the seat's own number is bound.
    pub(crate) fn is_bound(&self, seat: u32, own: u64) -> bool
        ensures { result ≡ is_bound self.now seat own }
    {
        self.joint(seat, own).is_some()
    }

    /// Whether some own number of a seat that hasn't left is bound to the joint number.
    pub(crate) fn has_holder(&self, joint: u64) -> bool
        ensures { result ≡ has_holder self.now joint }
    {
        self.holders.is_counted(joint)
    }

    /// Binds an own number that isn't bound to a joint number.
    ///
    /// # Errors
    /// [`NoMemory`] where a growth was refused.
    #[inline(always)]
    pub(crate) fn bind(&mut self, seat: u32, own: u64, joint: u64) -> Result<(), NoMemory>
        requires here { is_here self.old seat ≡ true }
        requires unbound { is_bound self.old seat own ≡ false }
        requires capacity { holders_of self.old joint < length self.old + 2 ^ 63 }
        ensures ok { OnOk result
            (self.new ≡ with_table (λ t. fin.insert t own joint) self.old seat) }
        ensures err { OnErr result (self.new ≡ self.old) }
    {
        let at = seat as usize;
        match &mut self.seats[at] {
            Some(table) => bind_in(table, &mut self.holders, own, joint),
            None => Ok(()),
        }
    }

    /// Gives an own number up. Answers whether it was bound.
    pub(crate) fn unbind(&mut self, seat: u32, own: u64) -> bool
        requires here { is_here self.old seat ≡ true }
        ensures bound { result ≡ is_bound self.old seat own }
        ensures removed { self.new ≡ with_table (λ t. fin.remove t own) self.old seat }
    {
        let at = seat as usize;
        match &mut self.seats[at] {
            Some(table) => unbind_in(table, &mut self.holders, own),
            None => false,
        }
    }

    /// Gives these own numbers up, and answers how many were bound. A number that stands twice counts once. Takes
    /// O(log n) time for each number, and in all calls for a seat together constant time for each number of the opening.
    pub(crate) fn unbind_all(&mut self, seat: u32, numbers: &Numbers) -> u64
        requires here { is_here self.old seat ≡ true }
        ensures removed { self.new ≡ with_table (without_keys numbers.now) self.old seat }
        ensures count { result ≡ keys_lost numbers.now (table_of self.old seat) }
    {
        match numbers.as_u32s() {
            Some(owns) => self.unbind_u32s(seat, owns),
            None => self.unbind_each(seat, numbers),
        }
    }

    /// The same of numbers of four bytes, for which the table is looked up once.
    fn unbind_u32s(&mut self, seat: u32, owns: &[u32]) -> u64
        requires here { is_here self.old seat ≡ true }
        ensures removed { self.new ≡ with_table (without_keys owns.now) self.old seat }
        ensures count { result ≡ keys_lost owns.now (table_of self.old seat) }
    {
        let at = seat as usize;
        match &mut self.seats[at] {
            Some(table) => unbind_all_in(table, &mut self.holders, owns),
            None => 0,
        }
    }

    /// The same, each number by itself.
    #[cold]
    fn unbind_each(&mut self, seat: u32, numbers: &Numbers) -> u64
        requires here { is_here self.old seat ≡ true }
        ensures removed { self.new ≡ with_table (without_keys numbers.now) self.old seat }
        ensures count { result ≡ keys_lost numbers.now (table_of self.old seat) }
    {
        let mut count = 0;
        for index in 0..numbers.len() {
            if let Some(own) = numbers.get(index) {
                if self.unbind(seat, own) {
                    count += 1;
                }
            }
        }
        count
    }

    /// The own numbers of the seat that are bound, rising. Takes O(n log n) time for n of them, and time linear in the
    /// numbers of the opening and in how often the seat has bound a number.
    ///
    /// # Errors
    /// [`NoMemory`] where a growth was refused.
    pub(crate) fn own_numbers(&self, alloc: Global, seat: u32) -> Result<Vec<u64>, NoMemory>
        ensures { IfOk result (λ numbers. numbers.items ≡ own_numbers (table_of self.now seat)) }
    {
        match table_in(&self.seats, seat) {
            Some(table) => table.keys(alloc),
            None => Ok(Vec::new(alloc)),
        }
    }

    /// Gives the seat up, with all its own numbers, which are these. Takes the time of [`SeatTables::unbind_all`].
    pub(crate) fn leave(&mut self, seat: u32, numbers: &Numbers)
        requires here { is_here self.old seat ≡ true }
        requires all { numbers.now ≡ own_numbers (table_of self.old seat) }
        ensures { self.new ≡ without_seat self.old seat }
    {
        let _ = self.unbind_all(seat, numbers);
        self.close(seat);
    }

    /// Gives up a seat that holds nothing.
    fn close(&mut self, seat: u32)
        requires { table_of self.old seat ≡ Some fin.empty }
        ensures { self.new ≡ without_seat self.old seat }
    {
        let at = seat as usize;
        self.seats[at] = None;
    }

    /// The joint numbers that these own numbers are bound to, for those that are. Takes O(n log n) time, and memory for four
    /// times as many as differ, or for a few.
    ///
    /// # Errors
    /// [`NoMemory`] where a growth was refused.
    pub(crate) fn joints(
        &self,
        alloc: Global,
        seat: u32,
        numbers: &Numbers,
    ) -> Result<Vec<u64>, NoMemory>
        ensures { IfOk result (λ joints. (q : ℕ) → is_among joints.items q
            ≡ is_among (filter_map (joint_of self.now seat) numbers.now) q) }
    {
        let Some(table) = table_in(&self.seats, seat) else {
            return Ok(Vec::new(alloc));
        };
        match numbers.as_u32s() {
            Some(owns) => u32_joints(alloc, table, owns),
            None => each_joint(alloc, table, numbers),
        }
    }
}

/// One table for each seat, with the numbers up to that of the clauses bound to themselves.
fn same_tables(alloc: Global, seats: u32, clauses: u64) -> Result<Vec<Option<SeatTable>>, NoMemory>
    requires { clauses < 2 ^ 63 }
    ensures { IfOk result (λ tables. tables.items ≡ replicate seats (Some (up_to clauses))) }
{
    let mut tables = Vec::new(alloc);
    for _seat in 0..seats {
        let table = SeatTable::up_to(alloc, clauses)?;
        tables.push(Some(table))?;
    }
    Ok(tables)
}

/// Binds the own number in the table, and counts the joint number once more: both, or neither.
#[inline(always)]
fn bind_in(
    table: &mut SeatTable,
    holders: &mut Counts,
    own: u64,
    joint: u64,
) -> Result<(), NoMemory>
    requires unbound { fin.get table.old own ≡ None }
    requires capacity { count_at holders.old joint + 1 < 2 ^ 64 }
    ensures table { OnOk result (table.new ≡ fin.insert table.old own joint) }
    ensures holders { OnOk result ((q : ℕ) → count_at holders.new q
        ≡ one_if_at (Some joint) q + count_at holders.old q) }
    ensures err { OnErr result ((table.new ≡ table.old)
        × ((q : ℕ) → count_at holders.new q ≡ count_at holders.old q)) }
{
    table.insert(own, joint)?;
    if let Err(e) = holders.add_one(joint) {
        table.remove(own);
        return Err(e);
    }
    Ok(())
}

/// Takes the own number out of the table, and one from the count of its joint number. Answers whether it was there.
#[inline(always)]
fn unbind_in(table: &mut SeatTable, holders: &mut Counts, own: u64) -> bool
    requires { (joint : ℕ) → fin.get table.old own ≡ Some joint → 0 < count_at holders.old joint }
    ensures bound { result ≡ fin.contains_key table.old own }
    ensures table { table.new ≡ fin.remove table.old own }
    ensures holders { (joint : ℕ) → count_at holders.old joint
        ≡ one_if_at (fin.get table.old own) joint + count_at holders.new joint }
{
    let Some(joint) = table.remove(own) else {
        return false;
    };
    holders.take_one(joint);
    true
}

/// Takes the own numbers out of the table, and for each that was there one from the count of its joint number. Answers how
/// many were there.
fn unbind_all_in(table: &mut SeatTable, holders: &mut Counts, owns: &[u32]) -> u64
    requires { (joint : ℕ) → count_in (Some table.old) joint ≤ count_at holders.old joint }
    ensures count { result ≡ keys_lost owns.now (Some table.old) }
    ensures table { table.new ≡ without_keys owns.now table.old }
    ensures holders { (joint : ℕ) → count_at holders.new joint + count_in (Some table.old) joint
        ≡ count_at holders.old joint + count_in (Some table.new) joint }
{
    let mut count = 0;
    for own in owns {
        if unbind_in(table, holders, u64::from(*own)) {
            count += 1;
        }
    }
    count
}

/// The joint numbers that these own numbers are bound to, for those that are.
///
/// # Errors
/// [`NoMemory`] where a growth was refused.
fn u32_joints(alloc: Global, table: &SeatTable, owns: &[u32]) -> Result<Vec<u64>, NoMemory>
    ensures { IfOk result (λ joints. (q : ℕ) → is_among joints.items q
        ≡ is_among (filter_map (fin.get table.now) owns.now) q) }
{
    let mut joints = Vec::with_capacity(alloc, owns.len().min(FIRST_JOINTS))?;
    for own in owns {
        if let Some(joint) = table.get(u64::from(*own)) {
            put_joint(&mut joints, joint)?;
        }
    }
    Ok(joints)
}

/// The same, where the numbers aren't at hand in four bytes.
///
/// # Errors
/// [`NoMemory`] where a growth was refused.
#[cold]
fn each_joint(alloc: Global, table: &SeatTable, numbers: &Numbers) -> Result<Vec<u64>, NoMemory>
    ensures { IfOk result (λ joints. (q : ℕ) → is_among joints.items q
        ≡ is_among (filter_map (fin.get table.now) numbers.now) q) }
{
    let mut joints = Vec::new(alloc);
    for own in numbers.iter() {
        if let Some(joint) = table.get(own) {
            put_joint(&mut joints, joint)?;
        }
    }
    Ok(joints)
}

/// Puts a number among others. Where there is no room, those that stand there twice make way first.
///
/// # Errors
/// [`NoMemory`] where a growth was refused.
#[inline]
fn put_joint(joints: &mut Vec<u64>, joint: u64) -> Result<(), NoMemory>
    ensures { OnOk result ((q : ℕ) → is_among joints.new.items q
        ≡ (is_among joints.old.items q || joint == q)) }
{
    if joints.len() == joints.capacity() {
        make_way(joints)?;
    }
    joints.push(joint)?;
    Ok(())
}

/// Leaves each of the numbers once, and makes room for as many more.
///
/// # Errors
/// [`NoMemory`] where a growth was refused.
#[cold]
#[inline(never)]
fn make_way(joints: &mut Vec<u64>) -> Result<(), NoMemory>
    ensures { OnOk result ((q : ℕ) → is_among joints.new.items q ≡ is_among joints.old.items q) }
{
    let all = replace(joints, Vec::new(*joints.allocator()));
    *joints = rising(all);
    joints.reserve_exact(joints.len())?;
    Ok(())
}

/// The table of a seat.
fn table_in(seats: &[Option<SeatTable>], seat: u32) -> Option<&SeatTable>
    ensures { option_copied result ≡ table_of seats.now seat }
{
    match seats.get(seat as usize) {
        Some(table) => table.as_ref(),
        None => None,
    }
}
