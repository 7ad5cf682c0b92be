//! The words of a command.
use crate::stop::Stop;
use lj_clause::MAX_VARIABLE;
use lj_text::{Addition, Line, LineReader, Numbers};
use std::alloc::Global;

/// The first word, and what follows the blank behind it.
pub fn split_word(text: &str) -> (&str, &str) {
    match text.split_once(' ') {
        Some(parts) => parts,
        None => (text, ""),
    }
}

/// A number that is all of the text.
pub fn only_number(text: &str) -> Result<u64, Stop> {
    match text.parse::<u64>() {
        Ok(number) => Ok(number),
        Err(_) => Err(Stop::NotACommand),
    }
}

/// The first word, a number, and what follows it.
pub fn split_number(text: &str) -> Result<(u64, &str), Stop> {
    let (word, rest) = split_word(text);
    match word.parse::<u64>() {
        Ok(number) => Ok((number, rest)),
        Err(_) => Err(Stop::NotACommand),
    }
}

/// A number of a seat, of seats, of additions or of a variable, that is all of the text.
pub fn only_seat(text: &str) -> Result<u32, Stop> {
    match text.parse::<u32>() {
        Ok(seat) => Ok(seat),
        Err(_) => Err(Stop::NotACommand),
    }
}

/// A number of a seat, and what follows it.
pub fn split_seat(text: &str) -> Result<(u32, &str), Stop> {
    let (word, rest) = split_word(text);
    match word.parse::<u32>() {
        Ok(seat) => Ok((seat, rest)),
        Err(_) => Err(Stop::NotACommand),
    }
}

/// The text as one line of a proof.
pub fn line_of(alloc: Global, text: &str) -> Result<Line, Stop> {
    let mut reader = LineReader::new(alloc, MAX_VARIABLE);
    reader.feed(text.as_bytes())?;
    match reader.finish() {
        Ok(Some(line)) => Ok(line),
        Ok(None) => Err(Stop::NotACommand),
        Err(fault) => Err(fault.into()),
    }
}

/// The text as an addition.
pub fn addition_of(alloc: Global, text: &str) -> Result<Addition, Stop> {
    match line_of(alloc, text)? {
        Line::Add(addition) => Ok(addition.into_inner()),
        _ => Err(Stop::NotACommand),
    }
}

/// The numbers of a text that ends with 0.
pub fn numbers_of(alloc: Global, text: &str) -> Result<Numbers, Stop> {
    match line_of(alloc, &format!(in alloc; "1 d {text}")?)? {
        Line::Delete(numbers) => Ok(numbers.into_inner()),
        _ => Err(Stop::NotACommand),
    }
}
