//! Additions that are tested and entered in one call.
ghost use Rattle.std.specs.Prelude.{◌≡◌, ◌==◌, ℕ, not, nat_lt, if◌then◌else◌, OnOk, OnErr, IfOk, IfSome, Some, None, Err, true, false};
ghost use Rattle.lj_clause.specs.Literal.{variable_of};
ghost use Rattle.lj_clause.specs.LiteralSet.{holds};
ghost use Rattle.lj_book.specs.History.{after_entry, IsReached};
ghost use Rattle.lj_book.specs.State.{addition_count, next};
ghost use Rattle.lj_book.specs.Tables.{joint_of};
ghost use Rattle.lj_book.specs.Calls.{IsReplyBy, free_refusal};
ghost use Rattle.lj_book.specs.Inside.{inside_reply, inside_entry};
ghost use Rattle.lj_book.specs.declared.entry.Call.TheVariants as calls;
ghost use Rattle.lj_book.specs.inner.JointForms.{with_call};
ghost use Rattle.lj_book.specs.inner.JointLines.{addition_of_parts, joint_parts, tested_parts, inside_line};

use crate::clause_log::ClauseLog;
use crate::committing::{enter_step, refuted_at};
use crate::entry::{Added, Entry};
use crate::joint_book::JointBook;
use crate::joint_line::{clear, joint_line};
use crate::lent_addition::LentAddition;
use crate::line_tests::tested_line;
use crate::refusal::Refusal;
use crate::seat_tables::SeatTables;
use lj_clause::Lemma;
use lj_hint::Propagator;
use lj_text::{Addition, Boxed, Groups, Numbers};

impl JointBook {
    /// Tests a seat's addition over the live clauses, those of all seats, and enters it in recorded form. The propagator may
    /// have served any propagation before. Where the entry is wanted, gives a copy, with the named lemma in its call.
    ///
    /// # Errors
    /// The first that holds of [`Refusal::SeatGone`], [`Refusal::NumberTaken`], [`Refusal::UnknownNumber`],
    /// [`Refusal::GroupRepeated`], [`Refusal::HintNotUnit`], [`Refusal::EmptyOpen`], [`Refusal::MissingGroup`],
    /// [`Refusal::GroupStuck`], [`Refusal::GroupOpen`] and [`Refusal::Full`]; and [`Refusal::NoMemory`] where a growth
    /// was refused.
    #[inline(always)]
    pub fn add_inside(
        &mut self,
        seat: u32,
        addition: &Addition,
        propagator: &mut Propagator,
        wanted: bool,
        named: &Lemma,
    ) -> Result<(Added, Option<Boxed<Entry>>), Refusal>
        ensures reply { IsReplyBy (λ told. told.0) result
            (inside_reply self.old seat addition.now) }
        ensures refused { IfSome (free_refusal self.old seat addition.now.number)
            (λ e. result ≡ Err e) }
        ensures told { IfOk result (λ told. told.1 ≡ (if wanted
            then Some (with_call (calls.Add addition.now.number named.now)
            (inside_entry self.old seat addition.now))
            else None)) }
        ensures ok { OnOk result
            (self.new ≡ after_entry self.old (inside_entry self.old seat addition.now)) }
        ensures err { OnErr result (self.new ≡ self.old) }
    {
        let joint = self.next();
        let own = addition.number;
        if let Some(refusal) = self.free_refusal(seat, own) {
            return Err(refusal);
        }
        let clause_log = &mut self.clause_log;
        let (hints, joints) = (&mut self.joints, &mut self.joint_groups);
        if let Err(refusal) = recorded_line(
            clause_log,
            &self.tables,
            seat,
            addition,
            hints,
            joints,
            propagator,
        ) {
            clear(&mut self.joint_groups);
            return Err(refusal);
        }
        if self.added >= self.max_steps {
            clear(&mut self.joint_groups);
            return Err(Refusal::Full);
        }
        let _ = has_pivot(&addition.lemma);
        let step = LentAddition::new(joint, &addition.lemma, &self.joints, &self.joint_groups);
        let entry = step.entry_if(self.clause_log.allocator(), wanted, seat, own, named)?;
        let place = self.clause_log.history().len();
        let (clause_log, tables) = (&mut self.clause_log, &mut self.tables);
        enter_step(clause_log, tables, seat, own, &step, false)?;
        self.refuted = refuted_at(self.refuted, place, &step.clause);
        clear(&mut self.joint_groups);
        self.added += 1;
        Ok((Added { place, joint }, entry))
    }

    /// Whether the history holds as many additions as it may.
    pub(crate) fn is_full(&self) -> bool
        ensures { result ≡ not (nat_lt (addition_count self.now.history) self.now.max_steps) }
    {
        self.added >= self.max_steps
    }

    /// The next joint number.
    #[inline]
    pub(crate) fn next(&self) -> u64
        ensures { result ≡ next self.now }
    {
        let added = self.added;
        self.formula.len() as u64 + 1 + u64::from(added)
    }

    /// Puts the hints and the groups of a seat's addition, in recorded form, into lists that were used before. The book stays as
    /// it is.
    ///
    /// # Errors
    /// As [`JointBook::add_inside`].
    pub(crate) fn inside_line(
        &mut self,
        seat: u32,
        addition: &Addition,
        hints: &mut Numbers,
        groups: &mut Groups,
        propagator: &mut Propagator,
    ) -> Result<(), Refusal>
        ensures reply { IsReplyBy
            (λ _. addition_of_parts (next self.old) addition.now.lemma (hints.new, groups.new))
            result (inside_line self.old seat addition.now) }
        ensures reached { IsReached self.old }
        ensures refused { IfSome (free_refusal self.old seat addition.now.number)
            (λ e. result ≡ Err e) }
        ensures same { self.new ≡ self.old }
    {
        let added = self.added;
        let max_steps = self.max_steps;
        if let Some(refusal) = self.free_refusal(seat, addition.number) {
            return Err(refusal);
        }
        let clause_log = &mut self.clause_log;
        if let Err(refusal) = recorded_line(
            clause_log,
            &self.tables,
            seat,
            addition,
            hints,
            groups,
            propagator,
        ) {
            return Err(refusal);
        }
        if added >= max_steps {
            return Err(Refusal::Full);
        }
        Ok(())
    }
}

/// Puts the hints and the groups of a seat's addition, in recorded form, into lists that were used before. The clauses stay as they
/// are.
///
/// # Errors
/// As [`JointBook::add_inside`], but for what is refused before the line is read, and [`Refusal::Full`].
#[inline(always)]
fn recorded_line(
    clause_log: &mut ClauseLog,
    tables: &SeatTables,
    seat: u32,
    addition: &Addition,
    hints: &mut Numbers,
    joints: &mut Groups,
    propagator: &mut Propagator,
) -> Result<(), Refusal>
    ensures reply { (number : ℕ) → IsReplyBy
        (λ _. addition_of_parts number addition.now.lemma (hints.new, joints.new)) result
        (tested_parts clause_log.old.live number addition.now.lemma
        (joint_parts (joint_of tables.now seat) addition.now)) }
    ensures same { clause_log.new ≡ clause_log.old }
{
    let alloc = clause_log.allocator();
    if let Err(refusal) = joint_line(alloc, tables, seat, addition, hints, joints) {
        return Err(refusal);
    }
    tested_line(
        alloc,
        clause_log,
        &addition.lemma,
        hints,
        joints,
        propagator,
    )
}

/// Whether the lemma has a pivot, which then is a literal of its clause.
pub(super) fn has_pivot(lemma: &Lemma) -> bool
    ensures literal { IfSome lemma.now.pivot (λ q. (variable_of q == 0) ≡ false) }
    ensures there { IfSome lemma.now.pivot (λ q. holds lemma.now.clause q ≡ true) }
{
    match lemma.pivot() {
        Some(pivot) => pivot.variable() > 0,
        None => false,
    }
}
