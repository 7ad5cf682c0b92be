//! Values that no caller of one book comes by: a receipt of another, and clauses of which none lives.
use crate::tables::{BINARY, Line, addition, formula};
use lj_book::{Book, Refusal};
use lj_clause::{ClauseView, Lit, NoMemory};
use lj_hint::{Case, Clauses, Live, Propagator, Receipt, Tested, rat_test};
use std::alloc::Global;
use std::process::Abort;
use std::test::Fail;

/// A book of one seat over these clauses.
fn opened(rt: &impl Abort, alloc: Global, clauses: &[&[i32]]) -> Result<Book, Fail> {
    let formula = formula(rt, alloc, clauses)?;
    Ok(Book::open(alloc, formula, 1, 9)?)
}

fn case_of(alloc: Global, book: &Book, line: &Line) -> Result<Case, Fail> {
    Ok(book.take(0, &addition(alloc, line)?)?)
}

/// The receipt of an addition that is taken and tested.
fn receipt_of(rt: &impl Abort, alloc: Global, book: &Book, line: &Line) -> Result<Receipt, Fail> {
    let case = case_of(alloc, book, line)?;
    match case.test(&mut Propagator::new(alloc)) {
        Tested::Closed(receipt) => Ok(receipt),
        _ => panic!(rt; "not closed"),
    }
}

/// Asserts that a receipt of another book is stale, by its first hint.
fn assert_stale(rt: &impl Abort, book: &mut Book, receipt: Receipt) {
    let Err((refusal, _)) = book.commit(receipt) else {
        panic!(rt; "entered");
    };
    assert!(rt; refusal == Refusal::Stale(1));
}

/// The receipt of the empty lemma over two units.
fn receipt_over_units(rt: &impl Abort, alloc: Global) -> Result<Receipt, Fail> {
    let units = opened(rt, alloc, &[&[1], &[-1]])?;
    receipt_of(rt, alloc, &units, &Line(5, &[], &[1, 2]))
}

/// Under the number of its first hint another clause lives in the second book.
#[test]
fn a_receipt_of_another_book_is_stale(rt: HostRuntime) -> Result<(), Fail> {
    let receipt = receipt_over_units(&rt, rt.alloc())?;
    let mut book = opened(&rt, rt.alloc(), &BINARY)?;
    assert_stale(&rt, &mut book, receipt);
    Ok(())
}

/// A book in which no clause lives.
#[derive(Drop)]
struct NothingLives {
    alloc: Global,
}

impl Clauses for NothingLives {
    ghost use Rattle.std.specs.FinMap as fin;

    ghost clauses = { λ _. fin.empty };

    fn clause(&self, _number: u64) -> Option<ClauseView<'_>> {
        None
    }
}

impl Live for NothingLives {
    fn candidates(&self, _lit: Lit) -> Result<Vec<u64>, NoMemory> {
        Ok(Vec::new(self.alloc))
    }
}

/// How many groups a case that stays open takes over no clauses, where none is missing.
fn groups_over_nothing(alloc: Global, case: Case) -> Option<usize> {
    let mut propagator = Propagator::new(alloc);
    let Tested::Open(case) = case.test(&mut propagator) else {
        return None;
    };
    match rat_test(&NothingLives { alloc }, &case, &mut propagator) {
        Ok(groups) => Some(groups.len()),
        Err(_) => None,
    }
}

/// A lemma whose pivot's negation no live clause holds needs no group.
#[test]
fn an_open_case_has_no_candidates(rt: HostRuntime) -> Result<(), Fail> {
    let book = opened(&rt, rt.alloc(), &BINARY)?;
    let case = case_of(rt.alloc(), &book, &Line(5, &[3], &[]))?;
    assert!(rt; groups_over_nothing(rt.alloc(), case) == Some(0));
    Ok(())
}
