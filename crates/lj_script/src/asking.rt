//! What a book is asked.
use crate::args::{only_number, only_seat, split_seat};
use crate::out::Out;
use crate::stop::Stop;
use lj_book::Book;
use lj_clause::{Lit, NoMemory};
use lj_text::{AsStep, Step};
use lj_trim::{TrimRefusal, trim};
use std::alloc::Global;

/// The history, the live clauses and the verdict.
pub fn show(book: &Book, out: &mut Out) -> Result<(), NoMemory> {
    show_history(book, out)?;
    show_live(book, out)?;
    out.verdict(book.verdict())
}

/// The greatest number of a clause once the step is made.
pub fn greatest_after(greatest: u64, step: Option<&Step>) -> u64 {
    match step {
        Some(Step::Add(addition)) => addition.number,
        _ => greatest,
    }
}

fn show_history(book: &Book, out: &mut Out) -> Result<(), NoMemory> {
    let mut greatest = book.formula().len() as u64;
    for place in 0..book.history_len() {
        if let Some(entry) = book.entry(place)? {
            out.entry(&entry, greatest)?;
            greatest = greatest_after(greatest, entry.step.as_ref());
        }
    }
    Ok(())
}

fn show_live(book: &Book, out: &mut Out) -> Result<(), NoMemory> {
    let most = (book.formula().len() as u64).saturating_add(book.history_len());
    for number in 1..most.saturating_add(1) {
        if let Some(clause) = book.clause(number) {
            out.put("live")?;
            out.number(number)?;
            out.literals(clause.lits())?;
            out.put("\n")?;
        }
    }
    Ok(())
}

/// The live clauses that hold a literal.
pub fn candidates(book: &Book, rest: &str, out: &mut Out) -> Result<(), Stop> {
    let Some(lit) = rest.parse::<i32>().ok().and_then(Lit::new) else {
        return Err(Stop::NotACommand);
    };
    let found = book.candidates(lit)?;
    out.put("candidates")?;
    for number in &found {
        out.number(*number)?;
    }
    Ok(out.put("\n")?)
}

/// What a seat's own number is bound to.
pub fn joint(book: &Book, rest: &str, out: &mut Out) -> Result<(), Stop> {
    let (seat, own) = split_seat(rest)?;
    match book.joint(seat, only_number(own)?) {
        Some(number) => {
            out.put("joint")?;
            out.number(number)?;
            Ok(out.put("\n")?)
        }
        None => Ok(out.put("no joint\n")?),
    }
}

/// The joint variable of a seat's own one.
pub fn variable(book: &Book, rest: &str, out: &mut Out) -> Result<(), Stop> {
    let (seat, own) = split_seat(rest)?;
    match book.variable(seat, only_seat(own)?) {
        Some(variable) => {
            out.put("variable")?;
            out.number(u64::from(variable))?;
            Ok(out.put("\n")?)
        }
        None => Ok(out.put("none\n")?),
    }
}

/// The formula, if the book is verified.
pub fn verified(book: &Book, out: &mut Out) -> Result<(), NoMemory> {
    match book.verified()? {
        Some(verified) => {
            out.put("verified ")?;
            out.formula(verified.formula())?;
            out.put("\n")
        }
        None => out.put("not verified\n"),
    }
}

/// Copies of the steps of the history.
fn steps_of(alloc: Global, book: &Book) -> Result<Vec<Step>, NoMemory> {
    let mut steps = Vec::new(alloc);
    for place in 0..book.history_len() {
        if let Some(step) = step_at(book, place)? {
            steps.push(step)?;
        }
    }
    Ok(steps)
}

fn step_at(book: &Book, place: u64) -> Result<Option<Step>, NoMemory> {
    match book.entry(place)? {
        Some(entry) => Ok(entry.step),
        None => Ok(None),
    }
}

/// The trimmed steps of the history.
pub fn show_trimmed(alloc: Global, book: &Book, out: &mut Out) -> Result<(), NoMemory> {
    let steps = steps_of(alloc, book)?;
    match trim(alloc, book.formula(), &steps) {
        Ok(kept) => show_steps(&kept, book.formula().len() as u64, "trimmed", out),
        Err(TrimRefusal::NoRefutation) => out.put("no step adds the empty clause\n"),
        Err(TrimRefusal::NoMemory(refused)) => Err(refused),
    }
}

/// The steps of the history, for which the book is given up.
pub fn show_all_steps(book: Book, out: &mut Out) -> Result<(), NoMemory> {
    let clauses = book.formula().len() as u64;
    let steps = book.into_steps().to_vec()?;
    show_steps(&steps, clauses, "step", out)
}

/// Steps over a formula with so many clauses, each behind a word.
fn show_steps<S: AsStep>(
    steps: &[S],
    clauses: u64,
    word: &str,
    out: &mut Out,
) -> Result<(), NoMemory> {
    let mut greatest = clauses;
    for lent in steps {
        let step = lent.as_step();
        out.put(word)?;
        out.step(step, greatest)?;
        out.put("\n")?;
        greatest = greatest_after(greatest, Some(step));
    }
    Ok(())
}
