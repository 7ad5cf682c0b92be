//! Lists of clause numbers.
ghost use Rattle.std.specs.Prelude.{◌≡◌, true, ◌==◌, ◌<◌, ◌≤◌, ◌∷◌, ◌++◌, ◌⊎◌, [], length, take, drop, slice_get, IfOk, IfSome, OnOk, OnErr, is_ok, if◌then◌else◌};
ghost use Rattle.lj_text.specs.inner.LineReading.{IsReadOn};
ghost use Rattle.lj_text.specs.inner.ShortNumbers.{AreNumbersAhead};

use crate::bytes::{WINDOW, number_of_digits, others_in, short_number};
use std::alloc::{AllocError, Global};
use std::marker::Model;
use std::mem::swap;

/// The greatest number that takes four bytes.
const MAX_U32: u64 = u32::MAX as u64;

/// The greatest count of numbers whose room is worth keeping for those of a later line.
pub(crate) const MANY: usize = 65_536;

/// A list of clause numbers. Two are equal where their contents are.
///
/// There are two widths: each number takes four bytes, and once one of 2^32 or more was pushed, each takes eight. In a list
/// that was made of numbers of eight bytes they take eight.
#[derive(Debug, Drop)]
pub struct Numbers {
    form: Form,
}

/// Numbers by their width.
#[derive(Debug, Drop)]
enum Form {
    U32(Vec<u32>),
    Long(Vec<u64>),
}

impl Model for Numbers {
    ghost use Rattle.std.specs.Prelude.{List, ℕ};

    ghost Value = { List ℕ };

    ghost use Rattle.lj_text.specs.inner.Numbers.{numbers_in};

    ghost view = { λ n. numbers_in n.form };
}

impl Numbers {
    /// The list of these numbers. Takes no memory, and eight bytes for each of them stay taken. Takes constant time.
    pub fn new(numbers: Vec<u64>) -> Numbers
        ensures { result ≡ numbers.items }
    {
        Numbers {
            form: Form::Long(numbers),
        }
    }

    /// The list of these numbers. Takes no memory, and four bytes for each of them stay taken. Takes constant time.
    #[inline]
    pub fn from_u32s(numbers: Vec<u32>) -> Numbers
        ensures { result ≡ numbers.items }
    {
        Numbers {
            form: Form::U32(numbers),
        }
    }

    /// A list of no numbers, with room for so many of four bytes each. Takes constant time, but for the room.
    ///
    /// # Errors
    /// [`AllocError`] where a growth was refused.
    pub fn with_capacity(alloc: Global, count: usize) -> Result<Numbers, AllocError>
        ensures { IfOk result (λ list. list ≡ []) }
    {
        Ok(Numbers {
            form: Form::U32(Vec::with_capacity(alloc, count)?),
        })
    }

    /// Takes a number behind the others, in constant time, but for the growth of the list and for its first number of
    /// 2^32 or more.
    ///
    /// # Errors
    /// [`AllocError`] where a growth was refused, and then nothing has changed.
    #[inline(always)]
    pub fn push(&mut self, number: u64) -> Result<(), AllocError>
        ensures ok { OnOk result (self.new ≡ self.old ++ number ∷ []) }
        ensures err { OnErr result (self.new ≡ self.old) }
    {
        match &mut self.form {
            Form::U32(numbers) if number <= MAX_U32 => push_u32(numbers, number as u32),
            _ => self.push_long(number),
        }
    }

    /// The same, where the number, or each in the list, takes eight bytes.
    #[cold]
    #[inline(never)]
    fn push_long(&mut self, number: u64) -> Result<(), AllocError>
        ensures ok { OnOk result (self.new ≡ self.old ++ number ∷ []) }
        ensures err { OnErr result (self.new ≡ self.old) }
    {
        match &mut self.form {
            Form::U32(numbers) => {
                let scratch = numbers.len().saturating_add(1);
                let mut long = lengthened(*numbers.allocator(), numbers, scratch)?;
                long.push(number)?;
                self.form = Form::Long(long);
                Ok(())
            }
            Form::Long(numbers) => {
                numbers.push(number)?;
                Ok(())
            }
        }
    }

    /// Lets go of the numbers, and keeps the room of those of four bytes. Takes constant time.
    #[inline(always)]
    pub fn clear(&mut self)
        ensures { self.new ≡ [] }
    {
        match &mut self.form {
            Form::U32(numbers) => numbers.clear(),
            Form::Long(_) => self.let_go(),
        }
    }

    /// Lets go of the numbers and of their room. Takes constant time.
    #[cold]
    #[inline(never)]
    fn let_go(&mut self)
        ensures { self.new ≡ [] }
    {
        let alloc = match &self.form {
            Form::U32(numbers) => *numbers.allocator(),
            Form::Long(numbers) => *numbers.allocator(),
        };
        self.form = Form::U32(Vec::new(alloc));
    }

    /// Lets go of the numbers and of their room, where they are many. Takes constant time.
    #[inline(always)]
    pub(crate) fn let_go_of_many(&mut self)
        ensures { (self.new ≡ self.old) ⊎ (self.new ≡ []) }
    {
        if self.len() > MANY {
            self.let_go();
        }
    }

    /// Takes the short numbers at the front of a line's bytes behind the others, where they go behind them at no cost, and
    /// answers the bytes that follow. Takes time linear in the bytes that it passes.
    #[inline]
    pub(crate) fn read_short<'a>(&mut self, bytes: &'a [u8]) -> &'a [u8]
        ensures ahead { AreNumbersAhead self.old bytes.now self.new result.now }
        ensures read { IsReadOn self.old bytes.now self.new result.now }
        ensures within { length result.now ≤ length bytes.now }
    {
        match &mut self.form {
            Form::U32(numbers) => push_u32s(numbers, bytes),
            Form::Long(_) => bytes,
        }
    }

    /// Keeps the first numbers, so many, and the room of the others. Takes constant time.
    pub fn truncate(&mut self, count: usize)
        ensures { self.new ≡ take count self.old }
    {
        match &mut self.form {
            Form::U32(numbers) => numbers.truncate(count),
            Form::Long(numbers) => numbers.truncate(count),
        }
    }

    /// A list of these numbers, in exactly the room that it needs. Takes time linear in how many there are.
    ///
    /// # Errors
    /// [`AllocError`] where a growth was refused.
    pub fn from_slice(alloc: Global, numbers: &[u64]) -> Result<Numbers, AllocError>
        ensures { IfOk result (λ list. list ≡ numbers.now) }
    {
        let form = match shortened(alloc, numbers)? {
            Some(u32s) => Form::U32(u32s),
            None => Form::Long(Vec::from_slice(alloc, numbers)?),
        };
        Ok(Numbers { form })
    }

    /// Becomes the other list: a copy in exactly the room that it needs where this one has no room yet, and else by exchanging
    /// the two. Takes time linear in the numbers where they are copied, and constant time else.
    ///
    /// # Errors
    /// [`AllocError`] where a growth was refused, and then nothing has changed.
    #[inline(always)]
    pub(crate) fn take_over(&mut self, other: &mut Numbers) -> Result<(), AllocError>
        ensures ok { OnOk result (self.new ≡ other.old) }
        ensures err { OnErr result ((self.new ≡ self.old) × (other.new ≡ other.old)) }
    {
        if self.has_capacity() {
            swap(self, other);
        } else {
            *self = other.try_clone()?;
        }
        Ok(())
    }

    /// Whether some numbers fit in at no cost.
    #[inline(always)]
    fn has_capacity(&self) -> bool {
        match &self.form {
            Form::U32(numbers) => numbers.capacity() > 0,
            Form::Long(numbers) => numbers.capacity() > 0,
        }
    }

    /// How many numbers there are. Takes constant time.
    pub fn len(&self) -> usize
        ensures { result ≡ length self.now }
    {
        match &self.form {
            Form::U32(numbers) => numbers.len(),
            Form::Long(numbers) => numbers.len(),
        }
    }

    /// Whether there is none. Takes constant time.
    pub fn is_empty(&self) -> bool
        ensures { result ≡ (length self.now == 0) }
    {
        self.len() == 0
    }

    /// The number at a place, counted from 0. Takes constant time.
    pub fn get(&self, index: usize) -> Option<u64>
        ensures { result ≡ slice_get self.now index }
    {
        match &self.form {
            Form::U32(numbers) => u32_at(numbers, index),
            Form::Long(numbers) => numbers.get(index).copied(),
        }
    }

    /// The numbers, in order. Takes constant time.
    #[inline]
    pub fn iter(&self) -> NumbersIter<'_>
        ensures { result ≡ self.now }
    {
        match &self.form {
            Form::U32(numbers) => NumbersIter {
                rest: Rest::U32(numbers),
            },
            Form::Long(numbers) => NumbersIter {
                rest: Rest::Long(numbers),
            },
        }
    }

    /// The numbers, in order, where they are at hand in four bytes each. None tells nothing of them.
    /// Takes constant time.
    #[inline]
    pub fn as_u32s(&self) -> Option<&[u32]>
        ensures { IfSome result (λ u32s. u32s.now ≡ self.now) }
    {
        match &self.form {
            Form::U32(numbers) => Some(numbers),
            Form::Long(_) => None,
        }
    }

    /// A list of its own with the same numbers. Takes time and memory linear in how many there are.
    ///
    /// # Errors
    /// [`AllocError`] where a growth was refused.
    pub fn try_clone(&self) -> Result<Numbers, AllocError>
        ensures { IfOk result (λ list. list ≡ self.now) }
    {
        let form = match &self.form {
            Form::U32(numbers) => Form::U32(Vec::from_slice(*numbers.allocator(), numbers)?),
            Form::Long(numbers) => Form::Long(Vec::from_slice(*numbers.allocator(), numbers)?),
        };
        Ok(Numbers { form })
    }

    /// The numbers, in order, in a list of their own. Takes time linear in how many there are.
    ///
    /// # Errors
    /// [`AllocError`] where a growth was refused.
    pub fn to_vec(&self) -> Result<Vec<u64>, AllocError>
        ensures { IfOk result (λ numbers. numbers.items ≡ self.now) }
    {
        match &self.form {
            Form::U32(numbers) => lengthened(*numbers.allocator(), numbers, numbers.len()),
            Form::Long(numbers) => Vec::from_slice(*numbers.allocator(), numbers),
        }
    }
}

/// Takes a number behind the others. Where there is room for it, that takes no call of the library.
///
/// # Errors
/// [`AllocError`] where a growth was refused, and then nothing has changed.
#[inline(always)]
fn push_u32(numbers: &mut Vec<u32>, number: u32) -> Result<(), AllocError>
    ensures items { numbers.new.items ≡ (if is_ok result then numbers.old.items ++ number ∷ []
        else numbers.old.items) }
{
    if numbers.len() < numbers.capacity() {
        numbers.push_reserved(number);
        return Ok(());
    }
    numbers.push(number)?;
    Ok(())
}

/// Takes the short numbers at the front of a line's bytes behind the others, up to a 0, and answers the bytes that follow.
#[inline(never)]
fn push_u32s<'a>(numbers: &mut Vec<u32>, bytes: &'a [u8]) -> &'a [u8]
    ensures ahead { AreNumbersAhead numbers.old.items bytes.now numbers.new.items result.now }
    ensures read { IsReadOn numbers.old.items bytes.now numbers.new.items result.now }
    ensures within { length result.now ≤ length bytes.now }
{
    let mut rest = bytes;
    while let Some(window) = rest.first_chunk::<WINDOW>() {
        let (count, goes_on) = numbers_within(numbers, window);
        let (_, after) = rest.split_at(count);
        if !goes_on {
            return after;
        }
        rest = after;
    }
    last_numbers(numbers, rest)
}

/// The same of those that end within a window: how many bytes they take, and whether there are any and nothing else stops
/// them.
#[inline(always)]
fn numbers_within(numbers: &mut Vec<u32>, window: &[u8; WINDOW]) -> (usize, bool)
    ensures ahead { AreNumbersAhead numbers.old.items window.now numbers.new.items
        (drop result.0 window.now) }
    ensures within { result.0 ≤ 65 }
    ensures goes_on { result.1 ≡ true → 0 < result.0 }
{
    let mut others = others_in(window);
    let mut start = 0;
    while others != 0 {
        let end = others.trailing_zeros() as usize;
        let Some(number) = number_of_digits(window, start, end) else {
            return (start, false);
        };
        if number == 0 || push_u32(numbers, number).is_err() {
            return (start, false);
        }
        start = end + 1;
        others &= others - 1;
    }
    (start, start != 0)
}

/// The same where fewer bytes follow than a window has.
#[inline(never)]
fn last_numbers<'a>(numbers: &mut Vec<u32>, bytes: &'a [u8]) -> &'a [u8]
    ensures ahead { AreNumbersAhead numbers.old.items bytes.now numbers.new.items result.now }
    ensures within { length result.now ≤ length bytes.now }
{
    let mut rest = bytes;
    while let Some((number, after)) = short_number(rest) {
        if number == 0 || numbers.push(number).is_err() {
            return rest;
        }
        rest = after;
    }
    rest
}

/// The number at a place among those of four bytes.
#[inline]
fn u32_at(numbers: &[u32], index: usize) -> Option<u64>
    ensures { result ≡ slice_get numbers.now index }
{
    match numbers.get(index) {
        Some(number) => Some(u64::from(*number)),
        None => None,
    }
}

/// The same numbers in four bytes each: none where one of them doesn't fit.
fn shortened(alloc: Global, numbers: &[u64]) -> Result<Option<Vec<u32>>, AllocError>
    ensures { IfOk result (λ u32s. IfSome u32s (λ u32s. u32s.items ≡ numbers.now)) }
{
    let mut u32s = Vec::with_capacity(alloc, numbers.len())?;
    for number in numbers {
        if *number > MAX_U32 {
            return Ok(None);
        }
        u32s.push(*number as u32)?;
    }
    Ok(Some(u32s))
}

/// The same numbers in eight bytes each, with room for so many.
fn lengthened(alloc: Global, numbers: &[u32], scratch: usize) -> Result<Vec<u64>, AllocError>
    ensures { IfOk result (λ long. long.items ≡ numbers.now) }
{
    let mut long = Vec::with_capacity(alloc, scratch)?;
    for number in numbers {
        long.push(u64::from(*number))?;
    }
    Ok(long)
}

/// The numbers of a list that are still to come, in order.
#[derive(Debug, Drop)]
pub struct NumbersIter<'a> {
    rest: Rest<'a>,
}

/// Numbers by their width that are still to come.
#[derive(Clone, Copy, Debug)]
enum Rest<'a> {
    U32(&'a [u32]),
    Long(&'a [u64]),
}

impl<'a> Model for NumbersIter<'a> {
    ghost use Rattle.std.specs.Prelude.{List, ℕ};

    ghost Value = { List ℕ };

    ghost use Rattle.lj_text.specs.inner.Numbers.{numbers_left};

    ghost view = { λ n. numbers_left n.rest };
}

impl<'a> NumbersIter<'a> {
    /// No numbers. Takes constant time.
    #[inline]
    pub fn empty() -> NumbersIter<'a>
        ensures { result ≡ [] }
    {
        NumbersIter {
            rest: Rest::U32(&[]),
        }
    }

    /// How many numbers are still to come. Takes constant time.
    #[inline]
    pub fn len(&self) -> usize
        ensures { result ≡ length self.now }
    {
        match self.rest {
            Rest::U32(rest) => rest.len(),
            Rest::Long(rest) => rest.len(),
        }
    }

    /// The number at a place among those still to come, counted from 0. Takes constant time.
    #[inline]
    pub fn get(&self, index: usize) -> Option<u64>
        ensures { result ≡ slice_get self.now index }
    {
        match self.rest {
            Rest::U32(rest) => u32_at(rest, index),
            Rest::Long(rest) => rest.get(index).copied(),
        }
    }

    /// The first of those still to come, so many, or all where there are no more. Takes constant time.
    #[inline]
    pub fn first(&self, count: usize) -> NumbersIter<'a>
        ensures { result ≡ take count self.now }
    {
        let rest = match self.rest {
            Rest::U32(rest) => Rest::U32(&rest[..rest.len().min(count)]),
            Rest::Long(rest) => Rest::Long(&rest[..rest.len().min(count)]),
        };
        NumbersIter { rest }
    }

    /// Those still to come but for the first, so many.
    #[inline]
    pub(crate) fn behind(&self, count: usize) -> NumbersIter<'a>
        ensures { result ≡ drop count self.now }
    {
        let rest = match self.rest {
            Rest::U32(rest) => Rest::U32(rest.split_at(rest.len().min(count)).1),
            Rest::Long(rest) => Rest::Long(rest.split_at(rest.len().min(count)).1),
        };
        NumbersIter { rest }
    }

    /// Takes the first numbers, so many.
    #[inline]
    pub(crate) fn take_front(&mut self, count: usize) -> NumbersIter<'a>
        requires { count ≤ length self.old }
        ensures front { result ≡ take count self.old }
        ensures behind { self.new ≡ drop count self.old }
    {
        let (front, behind) = match self.rest {
            Rest::U32(rest) => {
                let (front, behind) = rest.split_at(count);
                (Rest::U32(front), Rest::U32(behind))
            }
            Rest::Long(rest) => {
                let (front, behind) = rest.split_at(count);
                (Rest::Long(front), Rest::Long(behind))
            }
        };
        self.rest = behind;
        NumbersIter { rest: front }
    }
}

impl<'a> Iterator for NumbersIter<'a> {
    type Item = u64;

    ghost use Rattle.std.specs.Iterator.{YieldsFirst, item_count};

    ghost next_gives = { YieldsFirst (λ numbers. numbers) };

    ghost remaining = { item_count (λ numbers. numbers) };

    #[inline]
    fn next(&mut self) -> Option<u64> {
        match self.rest {
            Rest::U32(rest) => {
                let (first, others) = rest.split_first()?;
                self.rest = Rest::U32(others);
                Some(u64::from(*first))
            }
            Rest::Long(rest) => {
                let (first, others) = rest.split_first()?;
                self.rest = Rest::Long(others);
                Some(*first)
            }
        }
    }
}
