//! What stands open while a script is played.
ghost use Rattle.std.specs.Prelude.{◌<◌};

use crate::args::{only_seat, split_seat, split_word};
use crate::event::event_of;
use crate::out::Out;
use crate::script::Script;
use crate::sharing::play_shared;
use crate::stop::Stop;
use crate::table::Table;
use crate::texts::{self, Grammar};
use crate::{asking, propagations};
use lj_book::Event;
use lj_clause::{Formula, MAX_VARIABLE, NoMemory};
use lj_hint::Propagator;
use lj_share::OpeningParts;
use lj_text::CnfReader;
use std::alloc::Global;
use std::marker::Brand;
use std::sync::Wait;

/// What stands open: the formula, a book, and, where its events are played by one call, those that wait for it.
#[derive(Drop)]
struct Stage {
    alloc: Global,
    /// The formula whose text is being read, and the line of the script where it begins.
    reading: Option<(CnfReader, u64)>,
    formula: Option<Formula>,
    table: Option<Table>,
    events: Option<Vec<Event>>,
    propagator: Propagator,
}

/// Plays a script.
pub fn play<R: Wait>(
    rt: &R,
    alloc: Global,
    script: &mut Script<'_>,
    out: &mut Out,
) -> Result<(), Stop> {
    let mut stage = Stage {
        alloc,
        reading: None,
        formula: None,
        table: None,
        events: None,
        propagator: Propagator::new(alloc),
    };
    play_lines(rt, &mut stage, script, out)
}

fn play_lines<R: Wait>(
    rt: &R,
    stage: &mut Stage,
    script: &mut Script<'_>,
    out: &mut Out,
) -> Result<(), Stop> {
    for _ in 0..u64::MAX {
        let Some(line) = script.next_line() else {
            break;
        };
        if is_of_formula(line) {
            stage.feed(line, script.at())?;
        } else {
            stage.end_formula()?;
            stage.play_command(rt, line, script, out)?;
        }
    }
    stage.end_formula()
}

/// Whether the line is one of a formula's text: it begins with no letter, or it is a header or a comment.
fn is_of_formula(line: &str) -> bool {
    match line.bytes().next() {
        Some(b'p' | b'c') => line == "c" || line.starts_with("p ") || line.starts_with("c "),
        Some(byte) => !byte.is_ascii_lowercase(),
        None => false,
    }
}

impl Stage {
    /// Takes a line of a formula's text, whose header closes what was open.
    fn feed(&mut self, line: &str, at: u64) -> Result<(), Stop> {
        if line.starts_with("p ") {
            self.table = None;
            self.events = None;
            self.formula = None;
            self.reading = Some((CnfReader::new(self.alloc, MAX_VARIABLE), at));
        }
        match &mut self.reading {
            Some((reader, _)) => feed_line(reader, line, at),
            None => Err(Stop::NotACommand),
        }
    }

    /// Ends the text of a formula that is being read.
    fn end_formula(&mut self) -> Result<(), Stop> {
        if let Some((reader, begun)) = self.reading.take() {
            self.formula = Some(ended(reader, begun)?);
        }
        Ok(())
    }

    fn formula(&self) -> Result<&Formula, Stop> {
        match &self.formula {
            Some(formula) => Ok(formula),
            None => Err(Stop::NotACommand),
        }
    }

    fn play_command<R: Wait>(
        &mut self,
        rt: &R,
        line: &str,
        script: &mut Script<'_>,
        out: &mut Out,
    ) -> Result<(), Stop> {
        let (word, rest) = split_word(line);
        match word {
            "open" | "events" => self.open(word, rest),
            "shared" => self.share(rt, rest, script, out),
            "cnf" => texts::show(self.alloc, Grammar::Formula, rest, out),
            "lrat" => texts::show(self.alloc, Grammar::Proof, rest, out),
            "formula" | "propagate" | "rat" | "propagations" => self.play_test(word, rest, out),
            _ => self.play_book(word, rest, out),
        }
    }

    /// The commands on a formula alone.
    fn play_test(&mut self, word: &str, rest: &str, out: &mut Out) -> Result<(), Stop> {
        if word == "propagations" {
            self.propagator = Propagator::after(self.alloc, only_seat(rest)?);
            return Ok(());
        }
        let Some(formula) = &self.formula else {
            return Err(Stop::NotACommand);
        };
        match word {
            "propagate" => propagations::propagate(
                self.alloc,
                formula,
                rest,
                &mut self.propagator,
                out,
            ),
            "rat" => propagations::rat(self.alloc, formula, rest, out),
            _ => {
                out.formula(formula)?;
                Ok(out.put("\n")?)
            }
        }
    }

    /// Opens a book, whose events wait to be played by one call where the word says so.
    fn open(&mut self, word: &str, rest: &str) -> Result<(), Stop> {
        let (seats, limit) = split_seat(rest)?;
        let limit = only_seat(limit)?;
        if seats == 0 {
            return Err(Stop::NotACommand);
        }
        let formula = self.formula()?.try_clone()?;
        self.table = Some(Table::open(self.alloc, formula, seats, limit)?);
        self.events = (word == "events").then_some(Vec::new(self.alloc));
        Ok(())
    }

    /// Plays the calls of a shared book, which stands open here once it is closed.
    fn share<R: Wait>(
        &mut self,
        rt: &R,
        rest: &str,
        script: &mut Script<'_>,
        out: &mut Out,
    ) -> Result<(), Stop> {
        let (seats, limit) = split_seat(rest)?;
        let limit = only_seat(limit)?;
        if seats == 0 {
            return Err(Stop::NotACommand);
        }
        let (alloc, formula) = (self.alloc, self.formula()?.try_clone()?);
        let opening_parts = OpeningParts::new(alloc, seats)?;
        let closed = play_shared::<Brand, _>(
            rt,
            alloc,
            opening_parts,
            formula,
            seats,
            limit,
            script,
            out,
        )?;
        self.events = None;
        self.table = match closed {
            Some(book) => Some(Table::new(alloc, book, seats)?),
            None => None,
        };
        Ok(())
    }

    /// The commands with a book open.
    fn play_book(&mut self, word: &str, rest: &str, out: &mut Out) -> Result<(), Stop> {
        let event = event_of(self.alloc, word, rest)?;
        let Some(table) = &mut self.table else {
            return Err(Stop::NotACommand);
        };
        match (event, &mut self.events) {
            (Some(event), Some(events)) => Ok(events.push(event)?),
            (Some(event), None) => Ok(out.reply(&table.reply(&event))?),
            (None, Some(events)) if word == "show" => {
                if play_events(table, events, out)? {
                    self.events = None;
                }
                self.ask(word, rest, out)
            }
            _ => self.ask(word, rest, out),
        }
    }

    /// What is asked of the open book.
    fn ask(&mut self, word: &str, rest: &str, out: &mut Out) -> Result<(), Stop> {
        if word == "steps" {
            return self.show_steps(out);
        }
        let Some(Table { book, .. }) = &self.table else {
            return Err(Stop::NotACommand);
        };
        match word {
            "show" => Ok(asking::show(book, out)?),
            "candidates" => asking::candidates(book, rest, out),
            "joint" => asking::joint(book, rest, out),
            "variable" => asking::variable(book, rest, out),
            "verified" => Ok(asking::verified(book, out)?),
            "trim" => Ok(asking::show_trimmed(self.alloc, book, out)?),
            _ => Err(Stop::NotACommand),
        }
    }

    fn show_steps(&mut self, out: &mut Out) -> Result<(), Stop> {
        match self.table.take() {
            Some(table) => Ok(asking::show_all_steps(table.into_book(), out)?),
            None => Err(Stop::NotACommand),
        }
    }
}

/// Plays events by one call, and prints their replies, or that the call itself was refused memory. Returns whether the events were
/// played.
fn play_events(table: &mut Table, events: &[Event], out: &mut Out) -> Result<bool, NoMemory> {
    let Ok(replies) = table.book.play(events) else {
        out.put("NoMemory\n")?;
        return Ok(false);
    };
    for reply in &replies {
        out.reply(reply)?;
    }
    Ok(true)
}

fn feed_line(reader: &mut CnfReader, line: &str, at: u64) -> Result<(), Stop> {
    for piece in [line.as_bytes(), b"\n"] {
        if let Err(fault) = reader.feed(piece) {
            return Err(Stop::Formula(fault.kind, at));
        }
    }
    Ok(())
}

/// The formula of a text that begins at a line of the script.
fn ended(reader: CnfReader, begun: u64) -> Result<Formula, Stop> {
    match reader.finish() {
        Ok(formula) => Ok(formula),
        Err(fault) => {
            let at = begun.saturating_add(fault.line).saturating_sub(1);
            Err(Stop::Formula(fault.kind, at))
        }
    }
}
