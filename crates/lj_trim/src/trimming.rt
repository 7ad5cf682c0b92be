//! Trimming.
ghost use Rattle.std.specs.Prelude.{◌≡◌, ◌↔◌, false, nat_le, ◌||◌, map, filter, filter_map, option_map, length, IfOk, Err};
ghost use Rattle.std.specs.List.{list_any, list_all};
ghost use Rattle.lj_text.specs.Steps.{adds_empty};
ghost use Rattle.lj_text.specs.Needed.{trimmed_steps};
ghost use Rattle.lj_trim.specs.Trimmed.{step_of};
ghost use Rattle.lj_trim.specs.inner.Trimmed.{keeps, groups_by, trimmed_by};

use crate::kept::Kept;
use crate::marks::Marks;
use crate::needed::{first_empty, needed_marks};
use lj_clause::{Formula, NoMemory};
use lj_text::{Addition, Groups, Numbers, Step};
use std::alloc::Global;
use thiserror::Error;

/// Why steps weren't trimmed.
#[derive(Clone, Copy, Debug, Error)]
pub enum TrimRefusal {
    /// No addition has the empty clause.
    #[error("no step adds the empty clause")]
    NoRefutation,
    /// A growth was refused.
    #[error("NoMemory")]
    NoMemory(NoMemory),
}

impl From<NoMemory> for TrimRefusal {
    ghost use Rattle.std.specs.Prelude.{◌≡◌};
    ghost use Rattle.lj_trim.specs.declared.trimming.TrimRefusal.TheVariants as refusals;

    ghost from_gives = { λ e r. r ≡ refusals.NoMemory e };

    fn from(error: NoMemory) -> Self {
        TrimRefusal::NoMemory(error)
    }
}

/// Whether the number is one of a clause of the formula or marked.
fn is_kept(clauses: u64, marks: &Marks, number: u64) -> bool
    ensures { result ≡ keeps clauses marks.now number }
{
    number <= clauses || marks.has(number)
}

/// The numbers that are kept.
fn kept_numbers(
    alloc: Global,
    clauses: u64,
    marks: &Marks,
    numbers: &Numbers,
) -> Result<Vec<u64>, NoMemory>
    ensures { IfOk result (λ v. v.items ≡ filter (keeps clauses marks.now) numbers.now) }
{
    let mut kept = Vec::new(alloc);
    for number in numbers.iter() {
        if is_kept(clauses, marks, number) {
            kept.push(number)?;
        }
    }
    Ok(kept)
}

/// Whether each group's candidate is kept.
fn all_kept(clauses: u64, marks: &Marks, groups: &Groups) -> bool
    ensures { result ≡ list_all (λ g. keeps clauses marks.now g.candidate) groups.now }
{
    for group in groups.iter() {
        if !is_kept(clauses, marks, group.candidate) {
            return false;
        }
    }
    true
}

/// The groups whose candidate is kept.
fn kept_groups(
    alloc: Global,
    clauses: u64,
    marks: &Marks,
    groups: &Groups,
) -> Result<Groups, NoMemory>
    ensures { IfOk result (λ kept. kept ≡ groups_by (keeps clauses marks.now) groups.now) }
{
    let mut kept = Groups::new(alloc);
    for group in groups.iter() {
        if is_kept(clauses, marks, group.candidate) {
            kept.push(group.candidate, group.hints)?;
        }
    }
    Ok(kept)
}

/// The addition without the groups whose candidate isn't kept.
fn with_kept_groups(
    alloc: Global,
    clauses: u64,
    marks: &Marks,
    addition: &Addition,
) -> Result<Addition, NoMemory>
    ensures { IfOk result (λ a. a ≡ record addition.now
        { groups = groups_by (keeps clauses marks.now) addition.now.groups }) }
{
    Ok(Addition {
        number: addition.number,
        lemma: addition.lemma.try_clone()?,
        hints: Numbers::new(addition.hints.to_vec()?),
        groups: kept_groups(alloc, clauses, marks, &addition.groups)?,
    })
}

/// What is left of a step.
fn trimmed_step<'a>(
    alloc: Global,
    clauses: u64,
    marks: &Marks,
    step: &'a Step,
) -> Result<Option<Kept<'a>>, NoMemory>
    ensures { IfOk result
        (λ r. option_map step_of r ≡ trimmed_by (keeps clauses marks.now) step.now) }
{
    match step {
        Step::Add(addition) => {
            if !is_kept(clauses, marks, addition.number) {
                return Ok(None);
            }
            if all_kept(clauses, marks, &addition.groups) {
                return Ok(Some(Kept::Whole(step)));
            }
            let part = with_kept_groups(alloc, clauses, marks, addition)?;
            Ok(Some(Kept::Part(Step::Add(part))))
        }
        Step::Delete { numbers } => {
            let left = kept_numbers(alloc, clauses, marks, numbers)?;
            if left.is_empty() {
                return Ok(None);
            }
            let numbers = Numbers::new(left);
            Ok(Some(Kept::Part(Step::Delete { numbers })))
        }
    }
}

/// What is left of steps.
fn trimmed_steps<'a>(
    alloc: Global,
    clauses: u64,
    marks: &Marks,
    steps: &'a [Step],
) -> Result<Vec<Kept<'a>>, NoMemory>
    ensures { IfOk result
        (λ v. map step_of v.items ≡ filter_map (trimmed_by (keeps clauses marks.now)) steps.now) }
{
    let mut kept = Vec::new(alloc);
    for step in steps {
        if let Some(left) = trimmed_step(alloc, clauses, marks, step)? {
            kept.push(left)?;
        }
    }
    Ok(kept)
}

/// The steps up to the first addition of the empty clause, of which only those stay that it needs: additions whose
/// number is needed, without the groups whose candidate isn't kept; deletions with the numbers of the formula's clauses
/// and of needed additions, if there are any. The steps are lent, and only what changes is copied.
///
/// Takes time linear in the numbers that the steps name, where additions name earlier additions alone and numbers are
/// not given out twice, as in the steps of a book.
///
/// # Errors
/// [`TrimRefusal::NoRefutation`] where no step adds the empty clause. [`TrimRefusal::NoMemory`] where a growth was
/// refused.
pub fn trim<'a>(
    alloc: Global,
    formula: &Formula,
    steps: &'a [Step],
) -> Result<Vec<Kept<'a>>, TrimRefusal>
    ensures trimmed { IfOk result
        (λ kept. map step_of kept.items ≡ trimmed_steps formula.now steps.now) }
    ensures no_refutation { (result ≡ Err TrimRefusal.NoRefutation)
        ↔ (list_any adds_empty steps.now ≡ false) }
{
    let Some(last) = first_empty(steps) else {
        return Err(TrimRefusal::NoRefutation);
    };
    let front = &steps[..last + 1];
    let dense = formula.len() + front.len() + 1;
    let marks = needed_marks(alloc, dense, front)?;
    Ok(trimmed_steps(alloc, formula.len() as u64, &marks, front)?)
}
