//! Provers on threads of their own, and a book that is closed with a seat missing.
ghost use Rattle.std.specs.Prelude.{◌≡◌};

use crate::tables::{self, BINARY, formula};
use lj_clause::{Formula, NoMemory};
use lj_share::{BookId, OpeningParts, Seat, SeatsOut, Shared, Told};
use lj_text::{Boxed, Line};
use std::alloc::Global;
use std::marker::Brand;
use std::process::Abort;
use std::sync::Wait;
use std::test::Fail;
use std::thread::{Threads, join};

fn addition(alloc: Global, number: u64, lemma: &[i32], hints: &[u64]) -> Result<Line, NoMemory> {
    let listed = tables::Line(number, lemma, hints);
    let addition = tables::addition(alloc, &listed)?;
    Ok(Line::Add(Boxed::new(alloc, addition)?))
}

#[test]
fn two_provers_on_threads_close_their_book_together(rt: HostRuntime) -> Result<(), Fail> {
    let formula = formula(&rt, rt.alloc(), &BINARY)?;
    prove_beside::<Brand, _>(&rt, rt.alloc(), OpeningParts::new(rt.alloc(), 2)?, formula)
}

fn prove_beside<L: BookId + Send + Sync, R: Threads + Wait + Abort + Sync>(
    rt: &R,
    alloc: Global,
    opening_parts: OpeningParts,
    formula: Formula,
) -> Result<(), Fail>
    requires name { opening_parts.name ≡ L.name }
    requires parts { (opening_parts.parts ≡ L.parts) × (opening_parts.parts ≡ 2) }
    requires lists { opening_parts.lists ≡ L.lists }
    requires log { opening_parts.log ≡ L.log }
    requires formula { formula ≡ L.formula }
    requires seats { L.seats ≡ 2 }
    requires limit { L.max_steps ≡ 9 }
{
    let (shared, mut seats) = Shared::<L>::open(alloc, opening_parts, formula, 2, 9)?;
    let Some(mut second) = seats.pop() else {
        panic!(rt; "no second seat");
    };
    let Some(first) = seats.get_mut(0) else {
        panic!(rt; "no first seat");
    };
    let (mut of_first, of_second) = submit_both(rt, alloc, &shared, first, &mut second)?;
    assert_seen(rt, alloc, &shared, first, &mut of_first)?;
    let (shared, mut seats) = with_one(rt, shared, seats);
    seats.push(second)?;
    assert_closed(rt, shared, seats, &of_first, &of_second);
    Ok(())
}

/// Lines of two provers at once, and their tokens.
fn submit_both<L: BookId + Send + Sync, R: Threads + Wait + Sync>(
    rt: &R,
    alloc: Global,
    shared: &Shared<L>,
    first: &mut Seat<L>,
    second: &mut Seat<L>,
) -> Result<(Vec<Told<L>>, Vec<Told<L>>), Fail> {
    let line = addition(alloc, 5, &[2], &[1, 2])?;
    let other = addition(alloc, 5, &[-2], &[3, 4])?;
    let (one, two) = join(
        rt,
        || shared.submit(rt, first, &line),
        || shared.submit(rt, second, &other),
    );
    let (one, two) = (one?, two?);
    let (mut of_first, mut of_second) = (Vec::new(alloc), Vec::new(alloc));
    of_first.push(one)?;
    of_second.push(two)?;
    Ok((of_first, of_second))
}

/// The first prover ends its proof by the clause of the other. A note sees the verdict then, and not before.
fn assert_seen<L: BookId, R: Wait + Abort>(
    rt: &R,
    alloc: Global,
    shared: &Shared<L>,
    seat: &mut Seat<L>,
    tokens: &mut Vec<Told<L>>,
) -> Result<(), Fail> {
    let import = Line::Import {
        number: 6,
        clause: Boxed::new(alloc, tables::clause(alloc, &[-2])?)?,
    };
    let last = addition(alloc, 7, &[], &[5, 6])?;
    let mut note = shared.note();
    assert!(rt; shared.verdict_seen(&mut note).is_none());
    tokens.push(shared.submit(rt, seat, &import)?)?;
    assert!(rt; shared.verdict_seen(&mut note).is_none());
    tokens.push(shared.submit(rt, seat, &last)?)?;
    assert!(rt; shared.verdict_seen(&mut note).is_some());
    assert!(rt; shared.verdict_now() == Some(3));
    Ok(())
}

/// A book that isn't closed with one seat of two comes back.
fn with_one<L: BookId>(
    rt: &impl Abort,
    shared: Shared<L>,
    seats: Vec<Seat<L>>,
) -> (Shared<L>, Vec<Seat<L>>)
    requires { L.parts ≡ L.seats }
{
    let Err(SeatsOut { shared, seats }) = shared.close(seats) else {
        panic!(rt; "closed with one seat");
    };
    assert!(rt; seats.len() == 1);
    (shared, seats)
}

fn assert_closed<L: BookId>(
    rt: &impl Abort,
    shared: Shared<L>,
    seats: Vec<Seat<L>>,
    of_first: &[Told<L>],
    of_second: &[Told<L>],
)
    requires { L.parts ≡ L.seats }
{
    let Ok(closed) = shared.close(seats) else {
        panic!(rt; "not closed");
    };
    assert!(rt; closed.book().history_len() == 4);
    assert!(rt; closed.confirm(0, of_first) && closed.confirm(1, of_second));
    assert!(rt; !closed.confirm(0, of_second));
}
