//! Lines that the book enters, with a copy of their entry where it is asked for.
ghost use Rattle.std.specs.Prelude.{◌≡◌, if◌then◌else◌, IfOk, IfErr, OnOk, OnErr, Some, None, is_ok, true};
ghost use Rattle.lj_clause.specs.Renaming.{image};
ghost use Rattle.lj_book.specs.Calls.{IsRefusal};
ghost use Rattle.lj_book.specs.Views.{IsClosedAlone};
ghost use Rattle.lj_book.specs.State.{next};
ghost use Rattle.lj_book.specs.Imports.{import_number};
ghost use Rattle.lj_book.specs.NamedReplies.{named_import, named_inside};
ghost use Rattle.lj_book.specs.Named.{after_named, beneath, names_of};
ghost use Rattle.lj_book.specs.NamedEntries.{named_import_entry};
ghost use Rattle.lj_book.specs.NamedInside.{named_inside_entry};
ghost use Rattle.lj_book.specs.NamedViews.{named_view};
ghost use Rattle.lj_share.specs.Refusals.{IsRefusedLine};
ghost use Rattle.lj_share.specs.inner.Lines.{IsJointOf, accepts_line, seat_line_entry};
ghost use Rattle.lj_share.specs.inner.Seats.{IfClosed, IsTestedAs};

use crate::seat::Unlocked;
use lj_book::{Book, Entry, Refusal};
use lj_clause::Clause;
use lj_hint::Propagator;
use lj_text::{Addition, Boxed, Line};

/// Enters a seat's line, with a copy of its entry where one is asked for; gives the joint number that a number of the line is
/// bound to. An addition is tested here, unless what the seat sees decided it.
///
/// # Errors
/// As [`Book::add_inside`], [`Book::drop_numbers`] and [`Book::import`].
pub(crate) fn enter(
    book: &mut Book,
    seat: u32,
    line: &Line,
    unlocked: Unlocked,
    propagator: &mut Propagator,
    with_entry: bool,
) -> Result<(Option<Entry>, u64), Refusal>
    requires { IsTestedAs (named_view book.old seat) seat line.now unlocked }
    ensures ok { OnOk result
        (book.new ≡ after_named book.old (seat_line_entry book.old seat line.now)) }
    ensures told { IfOk result
        (λ told. told.0
        ≡ (if with_entry then Some (seat_line_entry book.old seat line.now) else None)) }
    ensures joint { IfOk result (λ told. IsJointOf book.old seat line.now told.1) }
    ensures err { OnErr result (book.new ≡ book.old) }
    ensures accepted { OnOk result (accepts_line book.old seat line.now ≡ true) }
    ensures refusal { IfErr result (λ e. IsRefusedLine seat line.now e book.old) }
{
    match line {
        Line::Add(addition) => add(book, seat, addition, unlocked, propagator, with_entry),
        Line::Delete(numbers) => {
            let (_, entry) = book.drop_with_entry(seat, numbers, with_entry)?;
            Ok((entry, 0))
        }
        Line::Import { number, clause } => import(book, seat, *number, clause, with_entry),
    }
}

/// Enters a seat's addition.
///
/// # Errors
/// As [`Book::add_inside`].
fn add(
    book: &mut Book,
    seat: u32,
    addition: &Addition,
    unlocked: Unlocked,
    propagator: &mut Propagator,
    with_entry: bool,
) -> Result<(Option<Entry>, u64), Refusal>
    requires { IfClosed unlocked (IsClosedAlone (named_view book.old seat) seat addition.now) }
    ensures ok { OnOk result
        (book.new ≡ after_named book.old (named_inside_entry book.old seat addition.now)) }
    ensures told { IfOk result (λ told. told.0
        ≡ (if with_entry then Some (named_inside_entry book.old seat addition.now) else None)) }
    ensures joint { IfOk result (λ told. told.1 ≡ next (beneath book.old)) }
    ensures err { OnErr result (book.new ≡ book.old) }
    ensures accepted { OnOk result (is_ok (named_inside book.old seat addition.now) ≡ true) }
    ensures refusal { IfErr result (λ e. IsRefusal e (named_inside book.old seat addition.now)) }
{
    match unlocked {
        Unlocked::Closed(read) => {
            let (added, entry) = book.add_closed_with_entry(seat, addition, read, with_entry)?;
            Ok((unboxed(entry), added.joint))
        }
        Unlocked::Open => {
            let (added, entry) = book.add_inside_with_entry(
                seat, addition, propagator, with_entry,
            )?;
            Ok((unboxed(entry), added.joint))
        }
    }
}

/// The entry by value, if there is one.
fn unboxed(entry: Option<Boxed<Entry>>) -> Option<Entry>
    ensures { result ≡ entry }
{
    match entry {
        Some(entry) => Some(entry.into_inner()),
        None => None,
    }
}

/// Enters a seat's import.
///
/// # Errors
/// As [`Book::import`].
fn import(
    book: &mut Book,
    seat: u32,
    own: u64,
    clause: &Clause,
    with_entry: bool,
) -> Result<(Option<Entry>, u64), Refusal>
    ensures ok { OnOk result
        (book.new ≡ after_named book.old (named_import_entry book.old seat own clause.now)) }
    ensures told { IfOk result (λ told. told.0 ≡ (if with_entry
        then Some (named_import_entry book.old seat own clause.now) else None)) }
    ensures found { IfOk result (λ told. import_number (beneath book.old)
        (image (names_of book.old seat) clause.now) ≡ Some told.1) }
    ensures err { OnErr result (book.new ≡ book.old) }
    ensures accepted { OnOk result (is_ok (named_import book.old seat own clause.now) ≡ true) }
    ensures refusal { IfErr result (λ e. IsRefusal e (named_import book.old seat own clause.now)) }
{
    let (imported, entry) = book.import_with_entry(seat, own, clause, with_entry)?;
    Ok((entry, imported.joint))
}
