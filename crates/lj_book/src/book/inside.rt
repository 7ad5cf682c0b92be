//! Additions that are tested and entered in one call, in their seats' variables.
ghost use Rattle.std.specs.Prelude.{◌≡◌, if◌then◌else◌, Some, None, OnOk, OnErr, IfOk, IfSome, Err};
ghost use Rattle.lj_book.specs.Calls.{IsReply, IsReplyBy, free_refusal};
ghost use Rattle.lj_book.specs.Named.{beneath, named_over, after_named};
ghost use Rattle.lj_book.specs.NamedReplies.{named_inside};
ghost use Rattle.lj_book.specs.NamedInside.{named_inside_entry};
ghost use Rattle.lj_book.specs.inner.Over.{IsOver, IsOverAfter};

use crate::book::Book;
use crate::entry::{Added, Entry};
use crate::joint_book::JointBook;
use crate::joint_book::laws::history_is_legal;
use crate::joint_forms::{add_joint_form, refusal_at_limit};
use crate::refusal::Refusal;
use crate::variable_table::VariableTable;
use lj_hint::Propagator;
use lj_text::{Addition, Boxed};

impl Book {
    /// Tests a seat's addition over the live clauses, those of all seats, and enters it in recorded form: by hinted
    /// unit propagation over its first list, or else by resolution asymmetric tautology on its pivot (Cruz-Filipe et
    /// al., CADE 2017). The propagator may have served any propagation before. Where it enters, each of its variables above
    /// the formula's has a joint one: those that had none get the next ones, by rising number.
    ///
    /// Takes O(log n) time, amortized, for each number of the line, each hint that is read and each literal of the lemma
    /// and of these hints. Where the first list stays open, takes that time for each literal of the candidates too and for
    /// each clause that held the pivot's negation and died since one asked for it, and O(log c) for each group, with c
    /// candidates. The first addition whose first list stays open, and the next one that is tested, take O(log n) time for
    /// each joint number that was given and each literal of the live clauses. Where the lemma has a variable above the
    /// formula's, it also takes the time of [`Book::variable`] for each of its literals, and where one of them isn't its own
    /// joint one, time linear in the addition and O(n log n) time for n literals.
    ///
    /// # Errors
    /// The first that holds of [`Refusal::SeatGone`], [`Refusal::NumberTaken`], [`Refusal::UnknownNumber`],
    /// [`Refusal::GroupRepeated`], [`Refusal::HintNotUnit`], [`Refusal::EmptyOpen`], [`Refusal::MissingGroup`],
    /// [`Refusal::GroupStuck`], [`Refusal::GroupOpen`], [`Refusal::Full`] and [`Refusal::NoVariableLeft`]; and
    /// [`Refusal::NoMemory`] where a growth was refused. No variable is given then.
    pub fn add_inside(
        &mut self,
        seat: u32,
        addition: &Addition,
        propagator: &mut Propagator,
    ) -> Result<Added, Refusal>
        ensures reply { IsReply result (named_inside self.old seat addition.now) }
        ensures refused { IfSome (free_refusal (beneath self.old) seat addition.now.number)
            (λ e. result ≡ Err e) }
        ensures ok { OnOk result
            (self.new ≡ after_named self.old (named_inside_entry self.old seat addition.now)) }
        ensures err { OnErr result (self.new ≡ self.old) }
    {
        match self.add_inside_with_entry(seat, addition, propagator, false) {
            Ok((added, _entry)) => Ok(added),
            Err(refusal) => Err(refusal),
        }
    }

    /// As [`Book::add_inside`], with a copy of the entry where it is wanted: its call is in the seat's variables. The copy takes
    /// time linear in the entry.
    ///
    /// # Errors
    /// As [`Book::add_inside`].
    pub fn add_inside_with_entry(
        &mut self,
        seat: u32,
        addition: &Addition,
        propagator: &mut Propagator,
        wanted: bool,
    ) -> Result<(Added, Option<Boxed<Entry>>), Refusal>
        ensures reply { IsReplyBy (λ told. told.0) result
            (named_inside self.old seat addition.now) }
        ensures refused { IfSome (free_refusal (beneath self.old) seat addition.now.number)
            (λ e. result ≡ Err e) }
        ensures told { IfOk result (λ told. told.1
            ≡ (if wanted then Some (named_inside_entry self.old seat addition.now) else None)) }
        ensures ok { OnOk result
            (self.new ≡ after_named self.old (named_inside_entry self.old seat addition.now)) }
        ensures err { OnErr result (self.new ≡ self.old) }
    {
        add_named(
            &mut self.joint,
            &mut self.variables,
            seat,
            addition,
            propagator,
            wanted,
        )
    }
}

/// As [`Book::add_inside_with_entry`], with the parts of a book.
///
/// # Errors
/// As [`Book::add_inside`].
#[inline]
fn add_named(
    joint: &mut JointBook,
    variables: &mut VariableTable,
    seat: u32,
    addition: &Addition,
    propagator: &mut Propagator,
    wanted: bool,
) -> Result<(Added, Option<Boxed<Entry>>), Refusal>
    requires { IsOver joint.old variables.old }
    ensures reply { IsReplyBy (λ told. told.0) result
        (named_inside (named_over joint.old variables.old.variables) seat addition.now) }
    ensures refused { IfSome (free_refusal joint.old seat addition.now.number)
        (λ e. result ≡ Err e) }
    ensures told { IfOk result (λ told. told.1 ≡ (if wanted
        then Some (named_inside_entry (named_over joint.old variables.old.variables) seat
        addition.now)
        else None)) }
    ensures ok { OnOk result (IsOverAfter (named_over joint.old variables.old.variables)
        (named_inside_entry (named_over joint.old variables.old.variables) seat addition.now)
        joint.new variables.new) }
    ensures err { OnErr result ((joint.new ≡ joint.old) × (variables.new ≡ variables.old)) }
{
    let before = variables.next();
    let clause = addition.lemma.clause();
    if variables.is_settled(seat, clause) {
        let told = joint.add_inside(seat, addition, propagator, wanted, &addition.lemma);
        history_is_legal(joint);
        return told;
    }
    if let Some(refusal) = joint.free_refusal(seat, addition.number) {
        return Err(refusal);
    }
    let left = variables.give(seat, clause)?;
    if !left {
        let _ = joint.formula().variables();
        return Err(refusal_at_limit(joint, variables, seat, addition, propagator));
    }
    match add_joint_form(joint, variables, seat, addition, propagator, wanted) {
        Ok(told) => {
            history_is_legal(joint);
            Ok(told)
        }
        Err(refusal) => {
            variables.take_back(before);
            Err(refusal)
        }
    }
}
