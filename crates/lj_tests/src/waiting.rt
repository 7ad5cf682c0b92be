//! Calls that wait for nobody, while the lock is held by a call of another thread.
ghost use Rattle.std.specs.Prelude.{◌≡◌};

use crate::tables::{self, BINARY, formula};
use lj_book::Refusal;
use lj_clause::{Formula, NoMemory};
use lj_hint::{Propagator, Tested};
use lj_share::{BookId, Gate, OpeningParts, Seat, Shared, Told};
use lj_text::{Boxed, Line};
use std::alloc::Global;
use std::marker::Brand;
use std::process::Abort;
use std::sync::Wait;
use std::sync::atomic::{AtomicBool, Ordering};
use std::test::Fail;
use std::thread::{Threads, join, yield_now};

/// How often a thread gives its turn away before it goes on.
const TURNS: u32 = 1_000_000;

/// Holds the lock for a line until the other thread has done, or the turns are used up.
#[derive(Drop)]
struct Locked {
    locked: AtomicBool,
    done: AtomicBool,
    let_go: AtomicBool,
}

/// Gives turns away until this is set. Returns whether it was.
fn is_set_in_time(flag: &AtomicBool) -> bool {
    for _ in 0..TURNS {
        if flag.load(Ordering::SeqCst) {
            return true;
        }
        yield_now();
    }
    false
}

impl Gate for Locked {
    fn pass(&self, _: u32, _: u64) {}

    fn locked(&self, _: u32, _: u64) {
        self.locked.store(true, Ordering::SeqCst);
        if !is_set_in_time(&self.done) {
            self.let_go.store(true, Ordering::SeqCst);
        }
    }

    fn answered(&self, _: u32, _: u64) {}
}

fn line(alloc: Global, number: u64, lemma: &[i32], hints: &[u64]) -> Result<Line, NoMemory> {
    let addition = tables::addition(alloc, &tables::Line(number, lemma, hints))?;
    Ok(Line::Add(Boxed::new(alloc, addition)?))
}

/// Whether a take, and the test of its case, answer as they should.
fn takes<L: BookId>(
    alloc: Global,
    shared: &Shared<L>,
    seat: &mut Seat<L>,
) -> Result<bool, NoMemory> {
    let addition = tables::addition(alloc, &tables::Line(6, &[2], &[1, 2]))?;
    let Ok(case) = shared.take(seat, &addition) else {
        return Ok(false);
    };
    Ok(matches!(case.test(&mut Propagator::new(alloc)), Tested::Closed(_)))
}

/// Whether a line that is stuck by its first list is refused so.
fn is_stuck<L: BookId, R: Wait>(
    rt: &R,
    alloc: Global,
    shared: &Shared<L>,
    seat: &mut Seat<L>,
) -> Result<bool, NoMemory> {
    let stuck = line(alloc, 6, &[2], &[3, 1])?;
    match shared.submit(rt, seat, &stuck) {
        Err(refusal) => Ok(refusal == Refusal::HintNotUnit(1)),
        Ok(_) => Ok(false),
    }
}

/// Whether all of a seat's calls that wait for nobody answer as they should, once the lock is held.
fn answers<L: BookId, R: Wait>(
    rt: &R,
    alloc: Global,
    shared: &Shared<L>,
    seat: &mut Seat<L>,
    told: &Told<L>,
    gate: &Locked,
) -> Result<bool, NoMemory> {
    if !is_set_in_time(&gate.locked) {
        return Ok(false);
    }
    let taken = takes(alloc, shared, seat)?;
    let stuck = is_stuck(rt, alloc, shared, seat)?;
    Ok(taken && stuck && shared.told(told).seat == 1)
}

/// The same, after which the gate lets go.
fn answers_then_done<L: BookId, R: Wait>(
    rt: &R,
    alloc: Global,
    shared: &Shared<L>,
    seat: &mut Seat<L>,
    told: &Told<L>,
    gate: &Locked,
) -> Result<bool, NoMemory> {
    let answer = answers(rt, alloc, shared, seat, told, gate);
    gate.done.store(true, Ordering::SeqCst);
    answer
}

/// Asserts that the second seat's calls answer while a line of the first one holds the lock.
fn assert_answers<L: BookId + Send + Sync, R: Threads + Wait + Abort + Sync>(
    rt: &R,
    alloc: Global,
    shared: &Shared<L>,
    first: &mut Seat<L>,
    second: &mut Seat<L>,
) -> Result<(), Fail> {
    let told = shared
        .submit(rt, second, &line(alloc, 5, &[-2], &[3, 4])?)?
        .again();
    let holding = line(alloc, 5, &[2], &[1, 2])?;
    let gate = Locked {
        locked: AtomicBool::new(false),
        done: AtomicBool::new(false),
        let_go: AtomicBool::new(false),
    };
    let (entered, answered) = join(
        rt,
        || shared.submit_at(rt, first, &holding, 1, &gate),
        || answers_then_done(rt, alloc, shared, second, &told, &gate),
    );
    assert!(rt; entered.is_ok() && answered?);
    assert!(rt; !gate.let_go.load(Ordering::SeqCst));
    Ok(())
}

fn wait_beside<L: BookId + Send + Sync, R: Threads + Wait + Abort + Sync>(
    rt: &R,
    alloc: Global,
    opening_parts: OpeningParts,
    formula: Formula,
) -> Result<(), Fail>
    requires name { opening_parts.name ≡ L.name }
    requires parts { (opening_parts.parts ≡ L.parts) × (opening_parts.parts ≡ 2) }
    requires lists { opening_parts.lists ≡ L.lists }
    requires log { opening_parts.log ≡ L.log }
    requires formula { formula ≡ L.formula }
    requires seats { L.seats ≡ 2 }
    requires limit { L.max_steps ≡ 9 }
{
    let (shared, mut seats) = Shared::<L>::open(alloc, opening_parts, formula, 2, 9)?;
    let Some(mut second) = seats.pop() else {
        panic!(rt; "no second seat");
    };
    let Some(first) = seats.get_mut(0) else {
        panic!(rt; "no first seat");
    };
    assert_answers(rt, alloc, &shared, first, &mut second)
}

/// A take, its test, a token's entry and a line that is stuck by its first list don't wait for the lock.
#[test]
fn take_while_locked(rt: HostRuntime) -> Result<(), Fail> {
    let formula = formula(&rt, rt.alloc(), &BINARY)?;
    wait_beside::<Brand, _>(&rt, rt.alloc(), OpeningParts::new(rt.alloc(), 2)?, formula)
}
