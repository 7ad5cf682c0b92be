//! Lists of events of seats that name their variables as they like.
ghost use Rattle.std.specs.Prelude.{◌≡◌, ℕ, List, true, IfOk, OnErr};
ghost use Rattle.lj_book.specs.declared.event.Event.TheVariants as events;
ghost use Rattle.lj_book.specs.declared.event.Pending.{Pending};
ghost use Rattle.lj_book.specs.Events.{is_tidy};
ghost use Rattle.lj_book.specs.Named.{top_of};
ghost use Rattle.lj_book.specs.NamedViews.{named_view};
ghost use Rattle.lj_book.specs.NamedWorlds.{IsNamedAnswered, IsNamedPlayed};
ghost use Rattle.lj_book.specs.NamedSolo.{IsNamedAlone};
ghost use Rattle.lj_book.specs.PrivateAdditions.{IsPrivateReply, ArePrivateReplies};
ghost use Rattle.lj_book.specs.inner.PrivateSteps.{IsPrivateStep};

use super::Book;
use super::laws::events_are_proper;
use crate::event::{Event, Pending, Reply};
use crate::pending::{answer_test, nothing_pending, set_pending, take_pending};
use lj_clause::{Clause, NoMemory};
use lj_hint::Propagator;
use lj_text::{Addition, Numbers};

impl Book {
    /// Plays the events one after another, from nothing pending, and answers one reply for each.
    ///
    /// A take gives up what is pending for its seat, and where it is accepted its case is pending then. A test of a
    /// pending case leaves its receipt pending where the propagation closes, nothing where it doesn't, and the case where
    /// memory is short. A commit of a pending receipt leaves nothing pending. A test where no case is pending, and a
    /// commit where no receipt is, answer [`Reply::Nothing`]. The other events are calls, and leave what is pending.
    ///
    /// An addition inside whose first propagation stays open, and whose pivot has a variable above the formula's, is answered
    /// as its seat decides alone, by RAT among the clauses that it sees, whatever the other seats do. A seat each of whose
    /// commits comes after a take of its own, with only its tests between, is answered as if it were alone, in its own
    /// variables. Takes the time of the calls that the events make, and time linear in the events and the seats.
    ///
    /// # Errors
    /// [`NoMemory`] where room for the replies or for what is pending was refused: then no event was played. A growth
    /// that is refused later is that event's reply.
    pub fn play(&mut self, events: &[Event]) -> Result<Vec<Reply>, NoMemory>
        ensures run { IfOk result
            (λ replies. IsNamedPlayed self.old events.now replies.items self.new) }
        ensures private { IfOk result
            (λ replies. ArePrivateReplies self.old events.now replies.items) }
        ensures alone { IfOk result (λ replies. (seat : ℕ) → is_tidy seat events.now ≡ true
            → IsNamedAlone self.old events.now replies.items self.new seat) }
        ensures err { OnErr result (self.new ≡ self.old) }
    {
        let _ = self.joint.formula().variables();
        events_are_proper(events);
        let alloc = self.joint.allocator();
        let mut replies = Vec::with_capacity(alloc, events.len())?;
        let mut pending = nothing_pending(alloc, self.joint.seats())?;
        let mut propagator = Propagator::new(alloc);
        for event in events {
            let reply = self.answer(event, &mut pending, &mut propagator);
            replies.push(reply).unwrap();
        }
        Ok(replies)
    }

    /// The reply to one event.
    fn answer(
        &mut self,
        event: &Event,
        pending: &mut [Pending],
        propagator: &mut Propagator,
    ) -> Reply
        ensures run { IsNamedAnswered (record { state = self.old; pending = pending.old })
            event.now result (record { state = self.new; pending = pending.new }) }
        ensures private { IsPrivateStep self.old event.now result }
    {
        match event {
            Event::Take(seat, addition) => self.answer_take(*seat, addition, pending),
            Event::Test(seat) => answer_test(*seat, pending, propagator),
            Event::Commit(seat) => self.answer_commit(*seat, pending),
            Event::Inside(seat, addition) => self.answer_inside(*seat, addition, propagator),
            Event::Drop(seat, numbers) => self.answer_drop(*seat, numbers),
            Event::Adopt(seat, own, joint) => self.answer_adopt(*seat, *own, *joint),
            Event::Import(seat, own, clause) => self.answer_import(*seat, *own, clause),
            Event::Leave(seat) => self.answer_leave(*seat),
        }
    }

    fn answer_take(&self, seat: u32, addition: &Addition, pending: &mut [Pending]) -> Reply
        ensures { IsNamedAnswered (record { state = self.now; pending = pending.old })
            (events.Take seat addition.now) result
            (record { state = self.now; pending = pending.new }) }
    {
        match self.take(seat, addition) {
            Ok(case) => {
                set_pending(pending, seat, Pending::Case(case));
                Reply::Taken
            }
            Err(refusal) => {
                set_pending(pending, seat, Pending::Nothing);
                Reply::Refused(refusal)
            }
        }
    }

    fn answer_commit(&mut self, seat: u32, pending: &mut [Pending]) -> Reply
        ensures { IsNamedAnswered (record { state = self.old; pending = pending.old })
            (events.Commit seat) result (record { state = self.new; pending = pending.new }) }
    {
        match take_pending(pending, seat) {
            Pending::Receipt(receipt) => match self.commit(receipt) {
                Ok(added) => Reply::Added(added),
                Err((refusal, _receipt)) => Reply::Refused(refusal),
            },
            uncommitted => {
                set_pending(pending, seat, uncommitted);
                Reply::Nothing
            }
        }
    }

    fn answer_inside(
        &mut self,
        seat: u32,
        addition: &Addition,
        propagator: &mut Propagator,
    ) -> Reply
        ensures run { (pending : List Pending)
            → IsNamedAnswered (record { state = self.old; pending = pending })
            (events.Inside seat addition.now) result
            (record { state = self.new; pending = pending }) }
        ensures private { IsPrivateReply (top_of self.old) (named_view self.old seat) seat
            addition.now result }
    {
        let _ = addition.lemma.clause();
        let _ = self.joint.formula().variables();
        match self.add_inside(seat, addition, propagator) {
            Ok(added) => Reply::Added(added),
            Err(refusal) => Reply::Refused(refusal),
        }
    }

    fn answer_drop(&mut self, seat: u32, numbers: &Numbers) -> Reply
        ensures { (pending : List Pending)
            → IsNamedAnswered (record { state = self.old; pending = pending })
            (events.Drop seat numbers.now) result (record { state = self.new; pending = pending }) }
    {
        match self.drop_numbers(seat, numbers) {
            Ok(dropped) => Reply::Dropped(dropped),
            Err(refusal) => Reply::Refused(refusal),
        }
    }

    fn answer_adopt(&mut self, seat: u32, own: u64, joint: u64) -> Reply
        ensures { (pending : List Pending)
            → IsNamedAnswered (record { state = self.old; pending = pending })
            (events.Adopt seat own joint) result (record { state = self.new; pending = pending }) }
    {
        match self.adopt(seat, own, joint) {
            Ok(place) => Reply::Adopted(place),
            Err(refusal) => Reply::Refused(refusal),
        }
    }

    fn answer_import(&mut self, seat: u32, own: u64, clause: &Clause) -> Reply
        ensures { (pending : List Pending)
            → IsNamedAnswered (record { state = self.old; pending = pending })
            (events.Import seat own clause.now) result
            (record { state = self.new; pending = pending }) }
    {
        match self.import(seat, own, clause) {
            Ok(imported) => Reply::Imported(imported),
            Err(refusal) => Reply::Refused(refusal),
        }
    }

    fn answer_leave(&mut self, seat: u32) -> Reply
        ensures { (pending : List Pending)
            → IsNamedAnswered (record { state = self.old; pending = pending })
            (events.Leave seat) result (record { state = self.new; pending = pending }) }
    {
        match self.leave(seat) {
            Ok(place) => Reply::Left(place),
            Err(refusal) => Reply::Refused(refusal),
        }
    }
}
