//! Cases: what a test needs of an addition.
ghost use Rattle.std.specs.Prelude.{◌≡◌, map, IfOk};
ghost use Rattle.lj_hint.specs.Case.{groups_of};
ghost use Rattle.lj_hint.specs.Images.{hinted_image};

use crate::hint_list::PairHints;
use crate::pair::{Pair, renamed_pairs};
use crate::propagate::{Ending, propagate_negation};
use crate::propagator::Propagator;
use crate::receipt::Receipt;
use crate::tested::Tested;
use lj_clause::{Lemma, NoMemory, Renames};
use std::alloc::Global;
use std::marker::Model;

/// A seat's addition, with the clauses that its hints name. It is tested without the book.
#[derive(Debug, Drop)]
pub struct Case {
    seat: u32,
    own: u64,
    lemma: Lemma,
    hints: Vec<Pair>,
    groups: Vec<(Pair, Vec<Pair>)>,
}

impl Model for Case {
    ghost use Rattle.lj_hint.specs.Case.{CaseValue, case_of, groups_of};
    ghost use Rattle.lj_hint.specs.inner.Codes.{case_code};

    ghost Value = { CaseValue };

    ghost coded = { case_code };

    ghost view = { λ c. case_of c.seat c.own c.lemma c.hints.items (groups_of c.groups.items) };
}

impl Case {
    ghost use Rattle.std.specs.Prelude.{◌≡◌, ◌≤◌, length, OnOk, OnErr};
    ghost use Rattle.lj_hint.specs.Case.{case_of, groups_of, propagation_of};
    ghost use Rattle.lj_hint.specs.Images.{hints_image};
    ghost use Rattle.lj_hint.specs.Receipt.{receipt_of, IsReceipt};
    ghost use Rattle.lj_hint.specs.Tested.{tested_of, IfAnswered, IfNoMemory};

    /// The case of a seat's addition under its own number: the first list of hints, and the groups, each a
    /// candidate and its hints. Takes no memory, and constant time.
    pub fn new(
        seat: u32,
        own: u64,
        lemma: Lemma,
        hints: Vec<Pair>,
        groups: Vec<(Pair, Vec<Pair>)>,
    ) -> Case
        ensures { result ≡ case_of seat own lemma hints.items (groups_of groups.items) }
    {
        Case {
            seat,
            own,
            lemma,
            hints,
            groups,
        }
    }

    /// The seat whose addition it is. Takes constant time.
    pub fn seat(&self) -> u32
        ensures { result ≡ self.now.seat }
    {
        self.seat
    }

    /// The own number of the addition. Takes constant time.
    pub fn own(&self) -> u64
        ensures { result ≡ self.now.own }
    {
        self.own
    }

    /// The lemma of the addition. Takes constant time.
    pub fn lemma(&self) -> &Lemma
        ensures { result.now ≡ self.now.lemma }
    {
        &self.lemma
    }

    /// The first list of hints. Takes constant time.
    pub(crate) fn hints(&self) -> &[Pair]
        ensures { result.now ≡ self.now.hints }
    {
        self.hints.as_slice()
    }

    /// The groups, each a candidate and its hints. Takes constant time.
    pub(crate) fn groups(&self) -> &[(Pair, Vec<Pair>)]
        ensures { groups_of result.now ≡ self.now.groups }
    {
        &self.groups
    }

    /// Where the memory of its lists comes from.
    pub(crate) fn allocator(&self) -> Global {
        *self.hints.allocator()
    }

    /// The propagation of the lemma's negation over the first list of hints; the groups aren't looked at. The propagator may
    /// have served any propagation before, and may serve any after, whatever the answer. Takes O(n log n) time for the n
    /// literals that it reads.
    pub fn test(self, propagator: &mut Propagator) -> Tested
        ensures propagate { IfAnswered result
            (λ answer. answer ≡ tested_of self (propagation_of self)) }
        ensures no_memory { IfNoMemory result (λ case. case ≡ self) }
    {
        let hints = PairHints { pairs: &self.hints };
        match propagate_negation(&mut propagator.lits, self.lemma.clause(), &hints) {
            Ok(Ending::ClosedAfter(read)) => Tested::Closed(self.into_receipt(read)),
            Ok(Ending::StaysOpen) => Tested::Open(self),
            Ok(Ending::StuckAt(position)) => Tested::Stuck(position),
            Err(e) => Tested::NoMemory(self, e),
        }
    }

    /// Renames the variables of the clauses that the hints name. The lemma stays. Takes the time of
    /// [`Clause::renamed`](lj_clause::Clause::renamed) for each of them.
    ///
    /// # Errors
    /// [`NoMemory`] where a growth was refused, and then nothing has changed.
    pub fn rename_hints<R: Renames>(&mut self, renaming: &R) -> Result<(), NoMemory>
        ensures ok { OnOk result (self.new ≡ hints_image (R.renaming renaming.now) self.old) }
        ensures err { OnErr result (self.new ≡ self.old) }
    {
        let alloc = self.allocator();
        let hints = renamed_pairs(alloc, renaming, &self.hints)?;
        let groups = renamed_groups(alloc, renaming, &self.groups)?;
        self.hints = hints;
        self.groups = groups;
        Ok(())
    }

    /// The receipt of so many hints.
    fn into_receipt(self, read: usize) -> Receipt
        requires { IsReceipt (receipt_of self read) }
        ensures { result ≡ receipt_of self read }
    {
        let Case {
            seat,
            own,
            lemma,
            mut hints,
            groups: _,
        } = self;
        hints.truncate(read);
        Receipt::new(seat, own, lemma, hints)
    }
}

/// The groups with their variables renamed.
///
/// # Errors
/// [`NoMemory`] where a growth was refused.
fn renamed_groups<R: Renames>(
    alloc: Global,
    renaming: &R,
    groups: &[(Pair, Vec<Pair>)],
) -> Result<Vec<(Pair, Vec<Pair>)>, NoMemory>
    ensures { IfOk result (λ all. groups_of all.items
        ≡ map (hinted_image (R.renaming renaming.now)) (groups_of groups.now)) }
{
    let mut all = Vec::with_capacity(alloc, groups.len())?;
    for group in groups {
        let candidate = group.0.renamed(alloc, renaming)?;
        let hints = renamed_pairs(alloc, renaming, &group.1)?;
        all.push((candidate, hints))?;
    }
    Ok(all)
}
