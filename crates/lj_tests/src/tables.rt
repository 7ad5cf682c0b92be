//! What tables of examples are made of.
use lj_clause::{Clause, Formula, Lemma, Lit, NoMemory};
use lj_text::{Addition, Groups, Numbers, NumbersIter};
use std::alloc::Global;
use std::process::Abort;
use std::test::Fail;

/// The clauses `1 2`, `-1 2`, `1 -2` and `-1 -2`.
pub const BINARY: [&[i32]; 4] = [&[1, 2], &[-1, 2], &[1, -2], &[-1, -2]];

/// An addition as a table lists it: its own number, its lemma, and its hints.
#[derive(Clone, Copy)]
pub struct Line<'a>(pub u64, pub &'a [i32], pub &'a [u64]);

pub fn lits(alloc: Global, numbers: &[i32]) -> Result<Vec<Lit>, NoMemory> {
    let mut lits = Vec::new(alloc);
    for number in numbers {
        if let Some(lit) = Lit::new(*number) {
            lits.push(lit)?;
        }
    }
    Ok(lits)
}

pub fn clause(alloc: Global, numbers: &[i32]) -> Result<Clause, NoMemory> {
    Clause::from_lits(alloc, &lits(alloc, numbers)?)
}

pub fn addition(alloc: Global, line: &Line) -> Result<Addition, NoMemory> {
    let Line(number, lemma, hints) = line;
    Ok(Addition {
        number: *number,
        lemma: Lemma::from_lits(alloc, &lits(alloc, lemma)?)?,
        hints: Numbers::from_slice(alloc, hints)?,
        groups: Groups::new(alloc),
    })
}

/// A formula of these clauses, over variables up to 9.
pub fn formula(rt: &impl Abort, alloc: Global, clauses: &[&[i32]]) -> Result<Formula, Fail> {
    let mut made = Vec::new(alloc);
    for numbers in clauses {
        made.push(clause(alloc, numbers)?)?;
    }
    let Some(formula) = Formula::new(9, made) else {
        panic!(rt; "no formula");
    };
    Ok(formula)
}

pub fn assert_numbers(rt: &impl Abort, numbers: &Numbers, wanted: &[u64]) {
    assert_left(rt, numbers.iter(), wanted);
}

fn assert_left(rt: &impl Abort, numbers: NumbersIter<'_>, wanted: &[u64]) {
    assert!(rt; numbers.len() == wanted.len());
    for (number, listed) in numbers.zip(wanted) {
        assert!(rt; number == *listed);
    }
}
