//! Additions that are known to close by what their seats see, in their variables.
ghost use Rattle.std.specs.Prelude.{◌≡◌, Some, None, OnOk, OnErr, IfOk, IfErr, nat_lt, if◌then◌else◌};
ghost use Rattle.lj_book.specs.declared.refusal.Refusal.TheVariants.{Full, NoVariableLeft};
ghost use Rattle.lj_book.specs.State.{addition_count};
ghost use Rattle.lj_book.specs.Calls.{IsReply, IsReplyBy};
ghost use Rattle.lj_book.specs.Views.{IsClosedAlone};
ghost use Rattle.lj_book.specs.Named.{named_over, after_named};
ghost use Rattle.lj_book.specs.NamedViews.{named_view};
ghost use Rattle.lj_book.specs.NamedReplies.{named_inside};
ghost use Rattle.lj_book.specs.NamedInside.{named_inside_entry, IsClosedRefusal};
ghost use Rattle.lj_book.specs.inner.Over.{IsOver, IsOverAfter};

use crate::book::Book;
use crate::entry::{Added, Entry};
use crate::joint_book::JointBook;
use crate::joint_book::laws::history_is_legal;
use crate::joint_forms::close_joint_form;
use crate::refusal::Refusal;
use crate::variable_table::VariableTable;
use lj_text::{Addition, Boxed};

impl Book {
    /// Enters a seat's addition that is known to close after so many of its hints, by what the seat sees. It isn't tested
    /// again. Takes constant time for each hint that is read, amortized, or O(log n) for numbers beyond the slots; and
    /// O(log n) for the lemma and each of its literals, amortized. Where the lemma has a variable above the formula's, it
    /// also takes the time of [`Book::variable`] for each of its literals, and where one of them isn't its own joint one, time
    /// linear in the addition and O(n log n) time for n literals.
    ///
    /// # Errors
    /// [`Refusal::Full`], [`Refusal::NoVariableLeft`], and [`Refusal::NoMemory`] where a growth was refused. No variable is
    /// given then.
    pub fn add_closed(
        &mut self,
        seat: u32,
        addition: &Addition,
        read: usize,
    ) -> Result<Added, Refusal>
        requires { IsClosedAlone (named_view self.old seat) seat addition.now read }
        ensures reply { IsReply result (named_inside self.old seat addition.now) }
        ensures refusal { IfErr result IsClosedRefusal }
        ensures ok { OnOk result
            (self.new ≡ after_named self.old (named_inside_entry self.old seat addition.now)) }
        ensures err { OnErr result (self.new ≡ self.old) }
    {
        match self.add_closed_with_entry(seat, addition, read, false) {
            Ok((added, _entry)) => Ok(added),
            Err(refusal) => Err(refusal),
        }
    }

    /// As [`Book::add_closed`], with a copy of the entry where it is wanted: its call is in the seat's variables. The copy takes
    /// time linear in the entry.
    ///
    /// # Errors
    /// As [`Book::add_closed`].
    pub fn add_closed_with_entry(
        &mut self,
        seat: u32,
        addition: &Addition,
        read: usize,
        wanted: bool,
    ) -> Result<(Added, Option<Boxed<Entry>>), Refusal>
        requires { IsClosedAlone (named_view self.old seat) seat addition.now read }
        ensures reply { IsReplyBy (λ told. told.0) result
            (named_inside self.old seat addition.now) }
        ensures refusal { IfErr result IsClosedRefusal }
        ensures told { IfOk result (λ told. told.1
            ≡ (if wanted then Some (named_inside_entry self.old seat addition.now) else None)) }
        ensures ok { OnOk result
            (self.new ≡ after_named self.old (named_inside_entry self.old seat addition.now)) }
        ensures err { OnErr result (self.new ≡ self.old) }
    {
        let (joint, variables) = (&mut self.joint, &mut self.variables);
        close_named(joint, variables, seat, addition, read, wanted)
    }
}

/// As [`Book::add_closed_with_entry`], with the parts of a book.
///
/// # Errors
/// As [`Book::add_closed`].
#[inline]
fn close_named(
    joint: &mut JointBook,
    variables: &mut VariableTable,
    seat: u32,
    addition: &Addition,
    read: usize,
    wanted: bool,
) -> Result<(Added, Option<Boxed<Entry>>), Refusal>
    requires over { IsOver joint.old variables.old }
    requires closed { IsClosedAlone (named_view (named_over joint.old variables.old.variables) seat)
        seat addition.now read }
    ensures reply { IsReplyBy (λ told. told.0) result
        (named_inside (named_over joint.old variables.old.variables) seat addition.now) }
    ensures refusal { IfErr result IsClosedRefusal }
    ensures told { IfOk result (λ told. told.1 ≡ (if wanted
        then Some (named_inside_entry (named_over joint.old variables.old.variables) seat
        addition.now)
        else None)) }
    ensures ok { OnOk result (IsOverAfter (named_over joint.old variables.old.variables)
        (named_inside_entry (named_over joint.old variables.old.variables) seat addition.now)
        joint.new variables.new) }
    ensures err { OnErr result ((joint.new ≡ joint.old) × (variables.new ≡ variables.old)) }
{
    let before = variables.next();
    let clause = addition.lemma.clause();
    let _ = joint.formula().variables();
    if variables.is_settled(seat, clause) {
        let told = joint.add_closed(seat, addition, read, wanted, &addition.lemma);
        history_is_legal(joint);
        return told;
    }
    let left = variables.give(seat, clause)?;
    if !left {
        return Err(refusal_of_closed(joint));
    }
    match close_joint_form(joint, variables, seat, addition, read, wanted) {
        Ok(told) => {
            history_is_legal(joint);
            Ok(told)
        }
        Err(refusal) => {
            variables.take_back(before);
            Err(refusal)
        }
    }
}

/// The refusal of an addition that closes, where too few joint variables are left.
fn refusal_of_closed(joint: &JointBook) -> Refusal
    ensures { result ≡ (if nat_lt (addition_count joint.now.history) joint.now.max_steps
        then NoVariableLeft else Full) }
{
    if joint.is_full() {
        return Refusal::Full;
    }
    Refusal::NoVariableLeft
}
