//! Entries in their seats' variables.
ghost use Rattle.std.specs.Prelude.{◌≡◌, ◌↔◌, IsTrue, IfOk, Some, None, slice_get};
ghost use Rattle.lj_clause.specs.Renaming.{inverse};
ghost use Rattle.lj_book.specs.declared.entry.Call.TheVariants as calls;
ghost use Rattle.lj_book.specs.Named.{names_of, call_image, own_entry};

use crate::book::Book;
use crate::book::laws::history_is_legal;
use crate::entry::{Call, Entry};
use lj_clause::{Clause, Lemma, NoMemory};
use lj_text::Step;

impl Book {
    /// A copy of the entry at a place of the history, counted from 0: its call in the seat's variables, and its step in joint
    /// ones. Takes time linear in its contents, but O(n log n) for the n literals of a lemma, which are put in order again.
    ///
    /// # Errors
    /// [`NoMemory`] where a growth was refused.
    pub fn entry(&self, place: u64) -> Result<Option<Entry>, NoMemory>
        ensures { IfOk result (λ entry. entry ≡ slice_get self.now.history place) }
    {
        match self.joint.entry(place)? {
            Some(entry) => Ok(Some(self.own_entry(entry)?)),
            None => Ok(None),
        }
    }

    /// Whether the entry at a place of the history, counted from 0, is this one. Takes time linear in its contents, the time of
    /// [`Book::variable`] for each literal of its call, O(n log n) time for n of them, and no memory.
    pub fn is_entry(&self, place: u64, entry: &Entry) -> bool
        ensures { IsTrue result ↔ (slice_get self.now.history place ≡ Some entry.now) }
    {
        match &entry.call {
            Call::Add { own, lemma } => {
                self.is_addition(place, entry.seat, *own, lemma, &entry.step)
            }
            Call::Import { own, clause } => {
                self.is_import(place, entry.seat, *own, clause, &entry.step)
            }
            _ => self.joint.is_entry(place, entry),
        }
    }

    /// Whether the entry at the place is that of the seat's addition under its own number, with this step.
    fn is_addition(
        &self,
        place: u64,
        seat: u32,
        own: u64,
        lemma: &Lemma,
        step: &Option<Step>,
    ) -> bool
        ensures { IsTrue result ↔ (slice_get self.now.history place ≡ Some
            (record { seat = seat; call = calls.Add own lemma.now; step = step.now })) }
    {
        history_is_legal(self);
        match step {
            Some(step) => self.is_line(place, seat, own, lemma, step),
            None => false,
        }
    }

    /// The same, by a step that is there.
    fn is_line(&self, place: u64, seat: u32, own: u64, lemma: &Lemma, step: &Step) -> bool
        ensures { IsTrue result ↔ (slice_get self.now.history place ≡ Some
            (record { seat = seat; call = calls.Add own lemma.now; step = Some step.now })) }
    {
        match step {
            Step::Add(addition) => {
                self.variables.is_own_lemma(seat, lemma, &addition.lemma)
                    && self
                        .joint
                        .history()
                        .is_line(place, seat, own, addition, false)
            }
            Step::Delete { .. } => false,
        }
    }

    /// Whether the entry at the place is that of the seat's import under its own number, with this step.
    fn is_import(
        &self,
        place: u64,
        seat: u32,
        own: u64,
        clause: &Clause,
        step: &Option<Step>,
    ) -> bool
        ensures { IsTrue result ↔ (slice_get self.now.history place ≡ Some
            (record { seat = seat; call = calls.Import own clause.now; step = step.now })) }
    {
        history_is_legal(self);
        match step {
            Some(step) => self.is_part_import(place, seat, own, clause, step),
            None => self.is_equal_import(place, seat, own, clause),
        }
    }

    /// The same, without a step.
    fn is_equal_import(&self, place: u64, seat: u32, own: u64, clause: &Clause) -> bool
        ensures { IsTrue result ↔ (slice_get self.now.history place ≡ Some
            (record { seat = seat; call = calls.Import own clause.now; step = None })) }
    {
        match self.joint.history().imported(place, seat, own) {
            Some(joint) => self.variables.is_joint_form(seat, clause, &joint),
            None => false,
        }
    }

    /// The same, by a step that is there.
    fn is_part_import(&self, place: u64, seat: u32, own: u64, clause: &Clause, step: &Step) -> bool
        ensures { IsTrue result ↔ (slice_get self.now.history place ≡ Some
            (record { seat = seat; call = calls.Import own clause.now; step = Some step.now })) }
    {
        match step {
            Step::Add(addition) => {
                let joint = addition.lemma.clause().view();
                self.variables.is_joint_form(seat, clause, &joint)
                    && self
                        .joint
                        .history()
                        .is_line(place, seat, own, addition, true)
            }
            Step::Delete { .. } => false,
        }
    }

    /// The entry in its seat's variables.
    ///
    /// # Errors
    /// [`NoMemory`] where a growth was refused.
    fn own_entry(&self, entry: Entry) -> Result<Entry, NoMemory>
        ensures { IfOk result (λ own. own ≡ own_entry self.now.variables entry) }
    {
        let Entry { seat, call, step } = entry;
        Ok(Entry {
            seat,
            call: self.own_call(seat, call)?,
            step,
        })
    }

    /// The call in the seat's variables.
    ///
    /// # Errors
    /// [`NoMemory`] where a growth was refused.
    fn own_call(&self, seat: u32, call: Call) -> Result<Call, NoMemory>
        ensures { IfOk result (λ own. own ≡ call_image (inverse (names_of self.now seat)) call) }
    {
        let alloc = self.joint.allocator();
        let names = self.variables.to_own(seat);
        match call {
            Call::Add { own, lemma } => Ok(Call::Add {
                own,
                lemma: lemma.renamed(alloc, &names)?,
            }),
            Call::Import { own, clause } => Ok(Call::Import {
                own,
                clause: clause.renamed(alloc, &names)?,
            }),
            Call::Drop { numbers } => Ok(Call::Drop { numbers }),
            Call::Adopt { own, joint } => Ok(Call::Adopt { own, joint }),
            Call::Leave => Ok(Call::Leave),
        }
    }
}
