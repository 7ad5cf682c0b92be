//! Events as commands.
use crate::args::{
    addition_of, line_of, numbers_of, only_number, only_seat, split_number, split_seat,
};
use crate::stop::Stop;
use lj_book::Event;
use lj_text::Line;
use std::alloc::Global;

/// The event of a command, if the word is that of an event.
pub fn event_of(alloc: Global, word: &str, rest: &str) -> Result<Option<Event>, Stop> {
    let event = match word {
        "test" => Event::Test(only_seat(rest)?),
        "commit" => Event::Commit(only_seat(rest)?),
        "leave" => Event::Leave(only_seat(rest)?),
        "take" | "inside" => of_addition(alloc, word, rest)?,
        "drop" => of_drop(alloc, rest)?,
        "adopt" => of_adopt(rest)?,
        "import" => of_import(alloc, rest)?,
        _ => return Ok(None),
    };
    Ok(Some(event))
}

fn of_addition(alloc: Global, word: &str, rest: &str) -> Result<Event, Stop> {
    let (seat, text) = split_seat(rest)?;
    let addition = addition_of(alloc, text)?;
    Ok(if word == "take" {
        Event::Take(seat, addition)
    } else {
        Event::Inside(seat, addition)
    })
}

fn of_drop(alloc: Global, rest: &str) -> Result<Event, Stop> {
    let (seat, text) = split_seat(rest)?;
    Ok(Event::Drop(seat, numbers_of(alloc, text)?))
}

fn of_adopt(rest: &str) -> Result<Event, Stop> {
    let (seat, numbers) = split_seat(rest)?;
    let (own, joint) = split_number(numbers)?;
    Ok(Event::Adopt(seat, own, only_number(joint)?))
}

fn of_import(alloc: Global, rest: &str) -> Result<Event, Stop> {
    let (seat, text) = split_seat(rest)?;
    let (own, literals) = split_number(text)?;
    match line_of(alloc, &format!(in alloc; "{own} i {literals}")?)? {
        Line::Import { number, clause } => Ok(Event::Import(seat, number, clause.into_inner())),
        _ => Err(Stop::NotACommand),
    }
}
