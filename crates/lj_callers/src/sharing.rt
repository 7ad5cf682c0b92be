//! Two provers on threads of their own, who share a book of one formula.
ghost use Rattle.std.specs.Prelude.{◌≡◌, true, IfOk};
ghost use Rattle.lj_clause.specs.Truth.{IsUnsatisfiable};

use lj_book::laws;
use lj_clause::{Formula, NoMemory};
use lj_share::{BookId, NoGate, Numbered, OpeningParts, Seat, Shared};
use std::alloc::Global;
use std::marker::Brand;
use std::sync::Wait;
use std::thread::{Threads, join};

/// Enters the lines of two provers, of each up to the first that is refused, and tells whether one of them adds the empty
/// clause.
pub fn is_refuted_by_two<R: Threads + Wait + Sync>(
    rt: &R,
    alloc: Global,
    formula: Formula,
    one: &[Numbered],
    other: &[Numbered],
) -> Result<bool, NoMemory>
    ensures { IfOk result (λ yes. yes ≡ true → IsUnsatisfiable formula) }
{
    let opening_parts = OpeningParts::new(alloc, 2)?;
    prove_beside::<Brand, R>(rt, alloc, opening_parts, formula, one, other)
}

fn prove_beside<L: BookId + Send + Sync, R: Threads + Wait + Sync>(
    rt: &R,
    alloc: Global,
    opening_parts: OpeningParts,
    formula: Formula,
    one: &[Numbered],
    other: &[Numbered],
) -> Result<bool, NoMemory>
    requires name { opening_parts.name ≡ L.name }
    requires parts { (opening_parts.parts ≡ L.parts) × (opening_parts.parts ≡ 2) }
    requires lists { opening_parts.lists ≡ L.lists }
    requires log { opening_parts.log ≡ L.log }
    requires opening { (formula ≡ L.formula) × (L.seats ≡ 2) × (L.max_steps ≡ 4294967295) }
    ensures { IfOk result (λ yes. yes ≡ true → IsUnsatisfiable L.formula) }
{
    let (shared, mut seats) = Shared::<L>::open(alloc, opening_parts, formula, 2, u32::MAX)?;
    if let [first, second] = seats.as_mut_slice() {
        enter_both(rt, &shared, first, second, one, other);
    }
    Ok(is_refuted(shared, seats))
}

fn enter_both<L: BookId + Send + Sync, R: Threads + Wait + Sync>(
    rt: &R,
    shared: &Shared<L>,
    first: &mut Seat<L>,
    second: &mut Seat<L>,
    one: &[Numbered],
    other: &[Numbered],
) {
    join(
        rt,
        || shared.enter_lines(rt, first, one, &NoGate),
        || shared.enter_lines(rt, second, other, &NoGate),
    );
}

fn is_refuted<L: BookId>(shared: Shared<L>, seats: Vec<Seat<L>>) -> bool
    requires { L.parts ≡ L.seats }
    ensures { result ≡ true → IsUnsatisfiable L.formula }
{
    match shared.close(seats) {
        Ok(closed) => {
            let book = closed.book();
            laws::refuted_is_unsatisfiable(book);
            book.verdict().is_some()
        }
        Err(_) => false,
    }
}
