//! Additions that are lent part by part.
ghost use Rattle.std.specs.Prelude.{◌≡◌, if◌then◌else◌, Some, None, IfOk};
ghost use Rattle.lj_text.specs.declared.step.Step.TheVariants as steps;
ghost use Rattle.lj_book.specs.declared.entry.Call.TheVariants as calls;
ghost use Rattle.lj_book.specs.inner.JointLines.{addition_of_parts};
ghost use Rattle.lj_book.specs.inner.Records.{entry_of};

use crate::entry::{Call, Entry};
use lj_clause::{ClauseView, Lemma, NoMemory};
use lj_text::{Addition, Boxed, Groups, Numbers, Step};
use std::alloc::Global;
use std::marker::Model;

/// An addition whose parts are lent, so that who enters it makes none of them.
#[derive(Drop)]
pub(crate) struct LentAddition<'a> {
    pub number: u64,
    pub lemma: &'a Lemma,
    /// The clause of the lemma.
    pub clause: ClauseView<'a>,
    pub hints: &'a Numbers,
    pub groups: &'a Groups,
}

impl<'a> Model for LentAddition<'a> {
    ghost use Rattle.std.specs.Prelude.{◌≡◌};
    ghost use Rattle.lj_text.specs.declared.line.Addition.{Addition};
    ghost use Rattle.lj_book.specs.inner.Codes.{addition_code};

    ghost Value = { Addition };

    ghost coded = { addition_code };

    ghost view = { λ a. record {
      number = a.number;
      lemma = a.lemma.now;
      hints = a.hints.now;
      groups = a.groups.now;
    } };

    ghost invariant = { λ a. a.clause ≡ a.lemma.now.clause };
}

impl<'a> LentAddition<'a> {
    /// The addition of these parts.
    #[inline]
    pub(crate) fn new(
        number: u64,
        lemma: &'a Lemma,
        hints: &'a Numbers,
        groups: &'a Groups,
    ) -> LentAddition<'a>
        ensures { result
            ≡ addition_of_parts number lemma.now (hints.now, groups.now) }
    {
        let clause = lemma.clause().view();
        LentAddition {
            number,
            lemma,
            clause,
            hints,
            groups,
        }
    }

    /// An addition of its own with the same contents.
    ///
    /// # Errors
    /// [`NoMemory`] where a growth was refused.
    pub(crate) fn try_clone(&self) -> Result<Addition, NoMemory>
        ensures { IfOk result (λ clone. clone ≡ self.now) }
    {
        Ok(Addition {
            number: self.number,
            lemma: self.lemma.try_clone()?,
            hints: self.hints.try_clone()?,
            groups: self.groups.try_clone()?,
        })
    }

    /// The entry of a seat's call that adds this lemma, by this step, where it is wanted.
    ///
    /// # Errors
    /// [`NoMemory`] where a growth was refused.
    #[inline]
    pub(crate) fn entry_if(
        &self,
        alloc: Global,
        wanted: bool,
        seat: u32,
        own: u64,
        lemma: &Lemma,
    ) -> Result<Option<Boxed<Entry>>, NoMemory>
        ensures { IfOk result (λ entry. entry ≡ (if wanted
            then Some (entry_of seat (calls.Add own lemma.now) (Some (steps.Add self.now)))
            else None)) }
    {
        if !wanted {
            return Ok(None);
        }
        let call = Call::Add {
            own,
            lemma: lemma.try_clone()?,
        };
        let step = Some(Step::Add(self.try_clone()?));
        Ok(Some(Boxed::new(alloc, Entry { seat, call, step })?))
    }
}
