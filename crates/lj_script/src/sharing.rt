//! Calls of a shared book.
ghost use Rattle.std.specs.Prelude.{◌≡◌, ◌<◌};

use crate::args::{addition_of, line_of, only_number, only_seat, split_number, split_word};
use crate::asking::greatest_after;
use crate::out::Out;
use crate::pending::Pending;
use crate::script::Script;
use crate::stop::Stop;
use lj_book::{Book, Refusal, Reply};
use lj_clause::{Formula, NoMemory};
use lj_hint::{Propagator, Receipt};
use lj_share::{BookId, Closed, NoGate, OpeningParts, Seat, Shared, Told};
use lj_text::Line;
use std::alloc::Global;
use std::sync::Wait;

/// What stands of a seat's calls: what is pending, and its tokens, each with the greatest number before its entry.
#[derive(Drop)]
struct Caller<L: BookId> {
    pending: Pending,
    told: Vec<Told<L>>,
    greatest: Vec<u64>,
}

/// What stands of all calls: the callers, the room of their tests, and the greatest joint number so far.
#[derive(Drop)]
struct Callers<L: BookId> {
    alloc: Global,
    all: Vec<Caller<L>>,
    propagator: Propagator,
    greatest: u64,
}

impl<L: BookId> Callers<L> {
    fn new(alloc: Global, seats: usize, greatest: u64) -> Result<Callers<L>, NoMemory> {
        let mut all = Vec::new(alloc);
        for _ in 0..seats {
            all.push(Caller {
                pending: Pending::Nothing,
                told: Vec::new(alloc),
                greatest: Vec::new(alloc),
            })?;
        }
        Ok(Callers {
            alloc,
            all,
            propagator: Propagator::new(alloc),
            greatest,
        })
    }

    fn set_pending(&mut self, seat: usize, value: Pending) {
        if let Some(caller) = self.all.get_mut(seat) {
            caller.pending = value;
        }
    }

    fn take_receipt(&mut self, seat: usize) -> Option<Receipt> {
        self.all.get_mut(seat)?.pending.take_receipt()
    }

    fn test(&mut self, seat: usize) -> Reply {
        match self.all.get_mut(seat) {
            Some(caller) => caller.pending.test(&mut self.propagator),
            None => Reply::Nothing,
        }
    }

    /// Keeps a token.
    fn keep(&mut self, seat: usize, told: Told<L>, greatest: u64) -> Result<(), NoMemory> {
        if let Some(caller) = self.all.get_mut(seat) {
            caller.told.push(told)?;
            caller.greatest.push(greatest)?;
        }
        Ok(())
    }

    fn swap(&mut self, seat: usize) {
        if let Some(caller) = self.all.get_mut(seat) {
            if caller.told.len() > 1 && caller.greatest.len() > 1 {
                caller.told.swap(0, 1);
                caller.greatest.swap(0, 1);
            }
        }
    }

    fn forget(&mut self, seat: usize) {
        if let Some(caller) = self.all.get_mut(seat) {
            caller.told.pop();
            caller.greatest.pop();
        }
    }
}

/// What came of a call: a token, behind a word; that a line was entered, which is an addition or isn't; or a reply.
#[derive(Drop)]
enum Answer<L: BookId> {
    Told(&'static str, Told<L>),
    Entered(bool),
    Reply(Reply),
}

impl<L: BookId> Answer<L> {
    fn of(word: &'static str, answer: Result<Told<L>, Refusal>) -> Answer<L> {
        match answer {
            Ok(told) => Answer::Told(word, told),
            Err(refusal) => Answer::Reply(Reply::Refused(refusal)),
        }
    }

    fn is_no_memory(&self) -> bool {
        match self {
            Answer::Reply(Reply::Refused(Refusal::NoMemory(_))) => true,
            _ => false,
        }
    }
}

/// Opens a shared book, makes the calls up to `close`, and gives the closed book, unless the script ends before.
pub fn play_shared<L: BookId, R: Wait>(
    rt: &R,
    alloc: Global,
    opening_parts: OpeningParts,
    formula: Formula,
    number: u32,
    limit: u32,
    script: &mut Script<'_>,
    out: &mut Out,
) -> Result<Option<Book>, Stop>
    requires name { opening_parts.name ≡ L.name }
    requires parts { (opening_parts.parts ≡ L.parts) × (opening_parts.parts ≡ number) }
    requires lists { opening_parts.lists ≡ L.lists }
    requires log { opening_parts.log ≡ L.log }
    requires formula { formula ≡ L.formula }
    requires seats { (0 < number) × (number ≡ L.seats) }
    requires limit { limit ≡ L.max_steps }
{
    let greatest = formula.len() as u64;
    let mut callers = Callers::new(alloc, number as usize, greatest)?;
    let (shared, mut seats) = Shared::<L>::open(alloc, opening_parts, formula, number, limit)?;
    if make_calls(rt, &shared, &mut seats, &mut callers, script, out)? {
        return close(shared, seats, &callers, out);
    }
    Ok(None)
}

/// Makes the calls up to `close`. The answer is whether it came.
fn make_calls<L: BookId, R: Wait>(
    rt: &R,
    shared: &Shared<L>,
    seats: &mut [Seat<L>],
    callers: &mut Callers<L>,
    script: &mut Script<'_>,
    out: &mut Out,
) -> Result<bool, Stop> {
    for _ in 0..u64::MAX {
        let Some(line) = script.next_line() else {
            return Ok(false);
        };
        if line == "close" {
            return Ok(true);
        }
        if line == "verdict" {
            out.verdict(shared.verdict_now())?;
        } else {
            make_call(rt, shared, seats, callers, line, out)?;
        }
    }
    Ok(false)
}

fn make_call<L: BookId, R: Wait>(
    rt: &R,
    shared: &Shared<L>,
    seats: &mut [Seat<L>],
    callers: &mut Callers<L>,
    line: &str,
    out: &mut Out,
) -> Result<(), Stop> {
    let (word, rest) = split_word(line);
    let (number, rest) = split_word(rest);
    let number = only_seat(number)?;
    let Some(seat) = seats.get_mut(number as usize) else {
        return Err(Stop::NotACommand);
    };
    match word {
        "count" => Ok(show_count(seat.count(), out)?),
        "told" => Ok(show_told(shared, callers, number as usize, out)?),
        "swap" => {
            callers.swap(number as usize);
            Ok(())
        }
        "forget" => {
            callers.forget(number as usize);
            Ok(())
        }
        _ => {
            let answer = call(rt, shared, seat, callers, word, rest)?;
            Ok(show(shared, callers, number as usize, answer, out)?)
        }
    }
}

/// Makes a call, once more where it was refused memory.
fn call<L: BookId, R: Wait>(
    rt: &R,
    shared: &Shared<L>,
    seat: &mut Seat<L>,
    callers: &mut Callers<L>,
    word: &str,
    rest: &str,
) -> Result<Answer<L>, Stop> {
    let answer = call_once(rt, shared, seat, callers, word, rest)?;
    if answer.is_no_memory() {
        return call_once(rt, shared, seat, callers, word, rest);
    }
    Ok(answer)
}

fn call_once<L: BookId, R: Wait>(
    rt: &R,
    shared: &Shared<L>,
    seat: &mut Seat<L>,
    callers: &mut Callers<L>,
    word: &str,
    rest: &str,
) -> Result<Answer<L>, Stop> {
    match word {
        "submit" => submit(rt, shared, seat, &line_of(callers.alloc, rest)?),
        "enter" => enter(rt, shared, seat, &line_of(callers.alloc, rest)?),
        "take" => take(shared, seat, callers, rest),
        "test" => Ok(Answer::Reply(callers.test(seat.number() as usize))),
        "commit" => Ok(commit(rt, shared, seat, callers)),
        "adopt" => adopt(rt, shared, seat, rest),
        "leave" => Ok(Answer::of("Left", shared.leave(rt, seat))),
        _ => Err(Stop::NotACommand),
    }
}

/// Prints what came of a call: a token by its entry, and keeps it.
fn show<L: BookId>(
    shared: &Shared<L>,
    callers: &mut Callers<L>,
    seat: usize,
    answer: Answer<L>,
    out: &mut Out,
) -> Result<(), NoMemory> {
    match answer {
        Answer::Told(word, told) => {
            let greatest = callers.greatest;
            out.put(word)?;
            out.put(" ")?;
            callers.greatest = show_entry(shared, &told, greatest, out)?;
            callers.keep(seat, told, greatest)
        }
        Answer::Entered(is_addition) => {
            callers.greatest = callers.greatest.saturating_add(u64::from(is_addition));
            out.put("Entered\n")
        }
        Answer::Reply(reply) => out.reply(&reply),
    }
}

/// Prints the entry that a token shows. The answer is the greatest number behind it.
fn show_entry<L: BookId>(
    shared: &Shared<L>,
    told: &Told<L>,
    greatest: u64,
    out: &mut Out,
) -> Result<u64, NoMemory> {
    let entry = shared.told(told);
    out.entry(entry, greatest)?;
    Ok(greatest_after(greatest, entry.step.as_ref()))
}

fn submit<L: BookId, R: Wait>(
    rt: &R,
    shared: &Shared<L>,
    seat: &mut Seat<L>,
    line: &Line,
) -> Result<Answer<L>, Stop> {
    let word = match line {
        Line::Add(_) => "Added",
        Line::Delete(_) => "Dropped",
        Line::Import { .. } => "Imported",
    };
    Ok(Answer::of(word, shared.submit(rt, seat, line)))
}

fn enter<L: BookId, R: Wait>(
    rt: &R,
    shared: &Shared<L>,
    seat: &mut Seat<L>,
    line: &Line,
) -> Result<Answer<L>, Stop> {
    Ok(match shared.enter_at(rt, seat, line, 1, &NoGate) {
        Ok(()) => Answer::Entered(is_addition(line)),
        Err(refusal) => Answer::Reply(Reply::Refused(refusal)),
    })
}

fn is_addition(line: &Line) -> bool {
    match line {
        Line::Add(_) => true,
        _ => false,
    }
}

fn take<L: BookId>(
    shared: &Shared<L>,
    seat: &mut Seat<L>,
    callers: &mut Callers<L>,
    rest: &str,
) -> Result<Answer<L>, Stop> {
    let addition = addition_of(callers.alloc, rest)?;
    let (reply, pending) = match shared.take(seat, &addition) {
        Ok(case) => (Reply::Taken, Pending::Case(case)),
        Err(refusal) => (Reply::Refused(refusal), Pending::Nothing),
    };
    callers.set_pending(seat.number() as usize, pending);
    Ok(Answer::Reply(reply))
}

fn commit<L: BookId, R: Wait>(
    rt: &R,
    shared: &Shared<L>,
    seat: &mut Seat<L>,
    callers: &mut Callers<L>,
) -> Answer<L> {
    let number = seat.number() as usize;
    match callers.take_receipt(number) {
        Some(receipt) if receipt.seat() == seat.number() => {
            match shared.commit(rt, seat, receipt) {
                Ok(told) => Answer::Told("Added", told),
                Err((refusal, receipt)) => {
                    callers.set_pending(number, Pending::Receipt(receipt));
                    Answer::Reply(Reply::Refused(refusal))
                }
            }
        }
        _ => Answer::Reply(Reply::Nothing),
    }
}

fn adopt<L: BookId, R: Wait>(
    rt: &R,
    shared: &Shared<L>,
    seat: &mut Seat<L>,
    rest: &str,
) -> Result<Answer<L>, Stop> {
    let (own, rest) = split_number(rest)?;
    let joint = only_number(rest)?;
    Ok(Answer::of("Adopted", shared.adopt(rt, seat, own, joint)))
}

/// How many calls a seat has.
fn show_count(count: u64, out: &mut Out) -> Result<(), NoMemory> {
    out.put("count")?;
    out.number(count)?;
    out.put("\n")
}

/// The entries that a seat's tokens show.
fn show_told<L: BookId>(
    shared: &Shared<L>,
    callers: &Callers<L>,
    seat: usize,
    out: &mut Out,
) -> Result<(), NoMemory> {
    if let Some(caller) = callers.all.get(seat) {
        for (told, greatest) in caller.told.iter().zip(&caller.greatest) {
            show_entry(shared, told, *greatest, out)?;
        }
    }
    Ok(())
}

/// Closes the book, and says for each seat whether its tokens are its entries.
fn close<L: BookId>(
    shared: Shared<L>,
    seats: Vec<Seat<L>>,
    callers: &Callers<L>,
    out: &mut Out,
) -> Result<Option<Book>, Stop>
    requires { L.parts ≡ L.seats }
{
    let Ok(closed) = shared.close(seats) else {
        return Err(Stop::NotACommand);
    };
    confirm_all(&closed, callers, out)?;
    Ok(Some(closed.into_book()))
}

fn confirm_all<L: BookId>(
    closed: &Closed<L>,
    callers: &Callers<L>,
    out: &mut Out,
) -> Result<(), NoMemory> {
    for (seat, caller) in (0..u32::MAX).zip(&callers.all) {
        out.put(if closed.confirm(seat, &caller.told) {
            "confirmed\n"
        } else {
            "not confirmed\n"
        })?;
    }
    Ok(())
}
