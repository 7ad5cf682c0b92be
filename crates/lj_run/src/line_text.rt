//! The text of a line.
use crate::cut_list::CutList;
use itoa::Buffer;
use lj_clause::{Lemma, Lit};
use lj_text::{Addition, Line, NumbersIter};
use std::alloc::{AllocError, Global};

/// The line as LRAT has it, as far as 200 bytes reach. The number of a deletion, which says nothing, is left out.
pub(crate) fn line_text(alloc: Global, line: &Line) -> Result<String, AllocError> {
    let mut tokens = CutList::new(alloc, " ");
    match line {
        Line::Add(addition) => put_addition(alloc, &mut tokens, addition)?,
        Line::Delete(numbers) => {
            tokens.push("d")?;
            put_numbers(&mut tokens, numbers.iter())?;
        }
        Line::Import { number, clause } => {
            put_number(&mut tokens, *number)?;
            tokens.push("i")?;
            put_literals(&mut tokens, clause.lits())?;
        }
    }
    tokens.push("0")?;
    Ok(tokens.into_text())
}

/// The literals between brackets, as far as 200 bytes reach.
pub(crate) fn clause_text(alloc: Global, lits: &[Lit]) -> Result<String, AllocError> {
    let mut tokens = CutList::new(alloc, " ");
    put_literals(&mut tokens, lits)?;
    let tokens = tokens.into_text();
    format!(in alloc; "({tokens})")
}

/// Puts the words of an addition up to its last `0`.
fn put_addition(
    alloc: Global,
    tokens: &mut CutList,
    addition: &Addition,
) -> Result<(), AllocError> {
    put_number(tokens, addition.number)?;
    put_lemma(tokens, &addition.lemma)?;
    tokens.push("0")?;
    put_numbers(tokens, addition.hints.iter())?;
    for group in addition.groups.iter() {
        let candidate = group.candidate;
        let first = format!(in alloc; "-{candidate}")?;
        tokens.push(first.as_str())?;
        put_numbers(tokens, group.hints)?;
    }
    Ok(())
}

/// Puts the literals of a lemma, the pivot first.
fn put_lemma(tokens: &mut CutList, lemma: &Lemma) -> Result<(), AllocError> {
    let Some(pivot) = lemma.pivot() else {
        return Ok(());
    };
    put_literal(tokens, pivot)?;
    for lit in lemma.clause().lits() {
        if *lit != pivot {
            put_literal(tokens, *lit)?;
        }
    }
    Ok(())
}

fn put_literals(tokens: &mut CutList, lits: &[Lit]) -> Result<(), AllocError> {
    for lit in lits {
        put_literal(tokens, *lit)?;
    }
    Ok(())
}

fn put_numbers(tokens: &mut CutList, numbers: NumbersIter<'_>) -> Result<(), AllocError> {
    for number in numbers {
        put_number(tokens, number)?;
    }
    Ok(())
}

/// Puts a literal.
pub(crate) fn put_literal(tokens: &mut CutList, lit: Lit) -> Result<(), AllocError> {
    let mut digits = Buffer::new();
    tokens.push(digits.format(lit.get()))
}

fn put_number(tokens: &mut CutList, number: u64) -> Result<(), AllocError> {
    let mut digits = Buffer::new();
    tokens.push(digits.format(number))
}
