//! The numbers that a refutation needs.
ghost use Rattle.std.specs.Prelude.{◌≡◌, ◌+◌, ◌<◌, ◌↔◌, ℕ, false, map, take, length, IfOk, OnOk, IfSome, IsNone, option_to_list};
ghost use Rattle.std.specs.List.{list_any};
ghost use Rattle.lj_text.specs.Steps.{adds_empty};
ghost use Rattle.lj_text.specs.Needed.{up_to_empty, additions, empty_numbers, has};
ghost use Rattle.lj_trim.specs.inner.Marks.{is_marked, Marked, Passed};
ghost use Rattle.lj_trim.specs.inner.Front.{needed_in, lent_addition, empty_number_of};

use crate::marks::Marks;
use lj_clause::NoMemory;
use lj_text::{Addition, Step};
use std::alloc::Global;

/// Whether the step adds the empty clause.
pub(crate) fn adds_empty_clause(step: &Step) -> bool
    ensures { result ≡ adds_empty step.now }
{
    match step {
        Step::Add(addition) => addition.lemma.clause().lits().is_empty(),
        Step::Delete { .. } => false,
    }
}

/// The place of the first addition of the empty clause. Takes time linear in the steps.
pub(crate) fn first_empty(steps: &[Step]) -> Option<usize>
    ensures none { IsNone result ↔ (list_any adds_empty steps.now ≡ false) }
    ensures some { IfSome result
        (λ i. (i < length steps.now) × (take (i + 1) steps.now ≡ up_to_empty steps.now)) }
{
    for (position, step) in steps.iter().enumerate() {
        if adds_empty_clause(step) {
            return Some(position);
        }
    }
    None
}

/// The number of the step, where it adds the empty clause.
fn empty_number(step: &Step) -> Option<u64>
    ensures { option_to_list result ≡ empty_number_of step.now }
{
    match step {
        Step::Add(addition) => adds_empty_clause(step).then_some(addition.number),
        Step::Delete { .. } => None,
    }
}

/// Marks the numbers of the additions of the empty clause.
fn mark_empty(marks: &mut Marks, steps: &[Step]) -> Result<(), NoMemory>
    ensures { OnOk result (Marked marks.old marks.new (empty_numbers steps.now)) }
{
    for step in steps {
        if let Some(number) = empty_number(step) {
            marks.mark(number)?;
        }
    }
    Ok(())
}

/// The additions among the steps.
fn additions_of<'a>(alloc: Global, steps: &'a [Step]) -> Result<Vec<&'a Addition>, NoMemory>
    ensures { IfOk result (λ v. map lent_addition v.items ≡ additions steps.now) }
{
    let mut found = Vec::new(alloc);
    for step in steps {
        if let Step::Add(addition) = step {
            found.push(addition)?;
        }
    }
    Ok(found)
}

/// Marks the hints of the additions whose number is marked by then, from the last on, and answers the others.
fn pass<'a>(
    alloc: Global,
    marks: &mut Marks,
    begun: &Vec<&'a Addition>,
) -> Result<Vec<&'a Addition>, NoMemory>
    ensures { IfOk result (λ still. Passed marks.old marks.new (map lent_addition begun.now.items)
        (map lent_addition still.items)) }
{
    let mut still = Vec::new(alloc);
    let mut left = begun.len();
    while left > 0 {
        left -= 1;
        let addition = begun[left];
        if marks.has(addition.number) {
            marks.mark_hints(addition)?;
        } else {
            still.push(addition)?;
        }
    }
    Ok(still)
}

/// Marks the numbers that are needed in steps up to the addition of the empty clause. Takes time linear in `dense`, in the
/// steps and in the numbers that they name, and O(log n) time for each number beyond `dense`; and where it takes more than
/// two passes, the time of [`Marks::has`] in each for each addition that is left.
///
/// Where hints name only earlier additions and no number is given out twice, all is marked in one pass from the last
/// addition to the first, and a second one finds nothing more.
pub(crate) fn needed_marks(alloc: Global, dense: usize, steps: &[Step]) -> Result<Marks, NoMemory>
    ensures { IfOk result (λ m. (n : ℕ) → is_marked m n ≡ has (needed_in steps.now) n) }
{
    let mut marks = Marks::new(alloc, dense)?;
    mark_empty(&mut marks, steps)?;
    let mut begun = additions_of(alloc, steps)?;
    loop {
        let still = pass(alloc, &mut marks, &begun)?;
        if still.len() == begun.len() {
            return Ok(marks);
        }
        begun = still;
    }
}
