//! A propagation over hints that no book gives: two of them have one number, and each hint's own clause counts.
use crate::tables::{clause, lits};
use lj_clause::{Lemma, NoMemory};
use lj_hint::{Case, Pair, Propagator, Tested};
use std::alloc::Global;
use std::process::Abort;
use std::test::Fail;

/// The hints `2` and `-2`, both under number 7, for the empty lemma.
fn case(alloc: Global) -> Result<Case, NoMemory> {
    let lemma = Lemma::from_lits(alloc, &lits(alloc, &[])?)?;
    let mut pairs = Vec::new(alloc);
    for number in [2, -2] {
        let clause = clause(alloc, &[number])?;
        pairs.push(Pair { joint: 7, clause })?;
    }
    Ok(Case::new(3, 5, lemma, pairs, Vec::new(alloc)))
}

#[test]
fn hints_of_one_number_have_their_own_clauses(rt: HostRuntime) -> Result<(), Fail> {
    let case = case(rt.alloc())?;
    let Tested::Closed(receipt) = case.test(&mut Propagator::new(rt.alloc())) else {
        panic!(rt; "not closed");
    };
    assert!(&rt; receipt.seat() == 3 && receipt.own() == 5);
    assert!(&rt; receipt.listed().len() == 2);
    for pair in receipt.listed() {
        assert!(&rt; pair.joint == 7);
    }
    Ok(())
}
