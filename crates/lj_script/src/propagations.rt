//! Tests of lemmas over the clauses of a formula.
use crate::args::addition_of;
use crate::out::Out;
use crate::stop::Stop;
use lj_book::{Book, Refusal, Reply};
use lj_clause::{Formula, NoMemory};
use lj_hint::{Case, Pair, Propagator, Tested};
use lj_text::{Addition, Numbers};
use std::alloc::Global;

/// The hints, with their clauses of the formula.
fn pairs_of(alloc: Global, formula: &Formula, hints: &Numbers) -> Result<Vec<Pair>, Stop> {
    let mut pairs = Vec::new(alloc);
    for joint in hints.iter() {
        let Some(clause) = formula.clause(joint) else {
            return Err(Stop::NotACommand);
        };
        let clause = clause.try_clone()?;
        pairs.push(Pair { joint, clause })?;
    }
    Ok(pairs)
}

fn case_of(alloc: Global, formula: &Formula, rest: &str) -> Result<Case, Stop> {
    let addition = addition_of(alloc, &format!(in alloc; "1 {rest}")?)?;
    let pairs = pairs_of(alloc, formula, &addition.hints)?;
    Ok(Case::new(0, 1, addition.lemma, pairs, Vec::new(alloc)))
}

/// The propagation of a lemma over its hints.
pub fn propagate(
    alloc: Global,
    formula: &Formula,
    rest: &str,
    propagator: &mut Propagator,
    out: &mut Out,
) -> Result<(), Stop> {
    let case = case_of(alloc, formula, rest)?;
    Ok(show_tested(case, propagator, out)?)
}

fn show_tested(case: Case, propagator: &mut Propagator, out: &mut Out) -> Result<(), NoMemory> {
    let tested = match case.test(propagator) {
        Tested::NoMemory(case, _) => case.test(propagator),
        tested => tested,
    };
    match tested {
        Tested::Closed(receipt) => {
            out.put("Closed")?;
            for pair in receipt.listed() {
                out.number(pair.joint)?;
            }
            out.put("\n")
        }
        Tested::Open(_) => out.put("Open\n"),
        Tested::Stuck(place) => out.reply(&Reply::Stuck(place)),
        Tested::NoMemory(_, refused) => Err(refused),
    }
}

/// The test of a lemma, RAT included, by a book of its own.
pub fn rat(alloc: Global, formula: &Formula, rest: &str, out: &mut Out) -> Result<(), Stop> {
    let number = (formula.len() as u64).saturating_add(1);
    let addition = addition_of(alloc, &format!(in alloc; "{number} {rest}")?)?;
    let mut book = Book::open(alloc, formula.try_clone()?, 1, 1)?;
    Ok(show_entered(alloc, &mut book, &addition, out)?)
}

fn show_entered(
    alloc: Global,
    book: &mut Book,
    addition: &Addition,
    out: &mut Out,
) -> Result<(), NoMemory> {
    let mut propagator = Propagator::new(alloc);
    let answer = match book.add_inside(0, addition, &mut propagator) {
        Err(Refusal::NoMemory(_)) => book.add_inside(0, addition, &mut propagator),
        answer => answer,
    };
    if let Err(refusal) = answer {
        return out.reply(&Reply::Refused(refusal));
    }
    if let Some(entry) = book.entry(0)? {
        if let Some(step) = &entry.step {
            out.put("step")?;
            out.step(step, 0)?;
        }
    }
    out.put("\n")
}
