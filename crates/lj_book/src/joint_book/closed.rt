//! Additions that are known to close, which are entered without a test.
ghost use Rattle.std.specs.Prelude.{◌≡◌, [], if◌then◌else◌, Some, None, OnOk, OnErr, IfOk, IfErr};
ghost use Rattle.lj_book.specs.State.{next};
ghost use Rattle.lj_book.specs.History.{after_entry, IsReached};
ghost use Rattle.lj_book.specs.Calls.{IsReplyBy};
ghost use Rattle.lj_book.specs.Inside.{inside_reply, inside_entry};
ghost use Rattle.lj_book.specs.Solo.{view_of};
ghost use Rattle.lj_book.specs.Views.{IsClosedAlone};
ghost use Rattle.lj_book.specs.declared.entry.Call.TheVariants as calls;
ghost use Rattle.lj_book.specs.inner.JointForms.{with_call};
ghost use Rattle.lj_book.specs.inner.Views.{IsFullOrNoMemory};
ghost use Rattle.lj_book.specs.inner.JointLines.{addition_of_parts, inside_line};

use crate::entry::{Added, Entry};
use crate::joint_book::JointBook;
use crate::joint_book::inside::has_pivot;
use crate::joint_line::put_first;
use crate::lent_addition::LentAddition;
use crate::refusal::Refusal;
use lj_clause::Lemma;
use lj_text::{Addition, Boxed, Groups, Numbers};
use std::mem::replace;

impl JointBook {
    /// Enters a seat's addition that is known to close after so many of its hints, by what the seat sees. It isn't tested
    /// again. Where the entry is wanted, gives a copy, with the named lemma in its call.
    ///
    /// # Errors
    /// [`Refusal::Full`], and [`Refusal::NoMemory`] where a growth was refused.
    pub fn add_closed(
        &mut self,
        seat: u32,
        addition: &Addition,
        read: usize,
        wanted: bool,
        named: &Lemma,
    ) -> Result<(Added, Option<Boxed<Entry>>), Refusal>
        requires { IsClosedAlone (view_of self.old seat) seat addition.now read }
        ensures reply { IsReplyBy (λ told. told.0) result
            (inside_reply self.old seat addition.now) }
        ensures refusal { IfErr result IsFullOrNoMemory }
        ensures told { IfOk result (λ told. told.1 ≡ (if wanted
            then Some (with_call (calls.Add addition.now.number named.now)
            (inside_entry self.old seat addition.now))
            else None)) }
        ensures ok { OnOk result
            (self.new ≡ after_entry self.old (inside_entry self.old seat addition.now)) }
        ensures err { OnErr result (self.new ≡ self.old) }
    {
        let mut hints = self.lend_joints();
        let told = self.enter_closed(seat, addition, read, &mut hints, wanted, named);
        self.joints = hints;
        told
    }

    /// The room for joint hints, which has to come back.
    fn lend_joints(&mut self) -> Numbers
        ensures { self.new ≡ self.old }
    {
        let alloc = self.clause_log.allocator();
        replace(&mut self.joints, Numbers::from_u32s(Vec::new(alloc)))
    }

    /// As [`JointBook::add_closed`], with a list for the hints in joint numbers.
    ///
    /// # Errors
    /// As [`JointBook::add_closed`].
    fn enter_closed(
        &mut self,
        seat: u32,
        addition: &Addition,
        read: usize,
        hints: &mut Numbers,
        wanted: bool,
        named: &Lemma,
    ) -> Result<(Added, Option<Boxed<Entry>>), Refusal>
        requires { IsClosedAlone (view_of self.old seat) seat addition.now read }
        ensures reply { IsReplyBy (λ told. told.0) result
            (inside_reply self.old seat addition.now) }
        ensures refusal { IfErr result IsFullOrNoMemory }
        ensures told { IfOk result (λ told. told.1 ≡ (if wanted
            then Some (with_call (calls.Add addition.now.number named.now)
            (inside_entry self.old seat addition.now))
            else None)) }
        ensures ok { OnOk result
            (self.new ≡ after_entry self.old (inside_entry self.old seat addition.now)) }
        ensures err { OnErr result (self.new ≡ self.old) }
    {
        if let Err(refusal) = self.closed_hints(seat, addition, read, hints) {
            return Err(refusal);
        }
        let _ = has_pivot(&addition.lemma);
        let own = addition.number;
        let groups = Groups::new(self.allocator());
        let step = LentAddition::new(self.next(), &addition.lemma, hints, &groups);
        let entry = step.entry_if(self.clause_log.allocator(), wanted, seat, own, named)?;
        let added = self.enter_legal(seat, own, &step, false)?;
        Ok((added, entry))
    }

    /// Puts the hints that close a seat's addition, in joint numbers, into a list that was used before.
    ///
    /// # Errors
    /// As [`JointBook::add_closed`].
    fn closed_hints(
        &self,
        seat: u32,
        addition: &Addition,
        read: usize,
        hints: &mut Numbers,
    ) -> Result<(), Refusal>
        requires { IsClosedAlone (view_of self.now seat) seat addition.now read }
        ensures reply { IsReplyBy
            (λ _. addition_of_parts (next self.now) addition.now.lemma (hints.new, []))
            result (inside_line self.now seat addition.now) }
        ensures refusal { IfErr result IsFullOrNoMemory }
        ensures reached { IsReached self.now }
    {
        if self.added >= self.max_steps {
            return Err(Refusal::Full);
        }
        match self.tables.table(seat) {
            Some(table) => put_first(table, &addition.hints, read, hints),
            None => Err(Refusal::SeatGone),
        }
    }
}
