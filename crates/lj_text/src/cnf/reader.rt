//! The reader of formulas.
ghost use Rattle.std.specs.Prelude.{◌≡◌, ◌<◌, ◌≤◌, ◌+◌, ◌∷◌, ◌++◌, ◌⊎◌, ℕ, List, [], length, true, false, Ok, Err, None, Some, IfErr, IfSome};
ghost use Rattle.lj_clause.specs.Memory.{no_memory};
ghost use Rattle.lj_text.specs.Bytes.{line_number, tokens_of};
ghost use Rattle.lj_text.specs.LinesRead.{HasNoLineEnd, last_number};
ghost use Rattle.lj_text.specs.CnfRead.{IsAnswer, HasFaultAlready, EndsByNumber, NeedsMemory, cnf_fault_of, is_cnf_no_memory};
ghost use Rattle.lj_text.specs.inner.CnfBuffered.{NeedsMemoryFrom, Taken};
ghost use Rattle.lj_text.specs.inner.CnfResuming.{Reads, asks_memory, kept_fault, formula_from_state};
ghost use Rattle.lj_clause.specs.declared.lit.TheConstants.{MAX_VARIABLE};

use super::fault::{CnfFault, CnfFaultKind};
use super::state::{State, after_line, close};
use crate::bytes_so_far::BytesSoFar;
use crate::lines::first_line;
use lj_clause::Formula;
use std::alloc::{AllocError, Global};
use std::marker::Model;
use std::mem::replace;

/// Reads a formula in DIMACS CNF, from pieces of any size.
///
/// It holds the clauses so far and the line that is being read, and takes no room by the header's numbers.
#[derive(Debug, Drop)]
pub struct CnfReader {
    alloc: Global,
    max: u32,
    /// The line that is being read.
    buffer: Vec<u8>,
    /// Its number.
    line: u64,
    state: State,
    fed: BytesSoFar,
}

impl Model for CnfReader {
    ghost use Rattle.lj_text.specs.CnfRead.{CnfRead};
    ghost use Rattle.lj_text.specs.inner.CnfBuffered.{IsCnfBuffered};
    ghost use Rattle.lj_text.specs.inner.CnfResuming.{kept_fault};

    ghost Value = { CnfRead };

    ghost view = { λ r. record { max = r.max; fed = r.fed.bytes; fault = kept_fault r.state } };

    ghost invariant = { λ r. IsCnfBuffered r.max r.line r.buffer.items r.state r.fed.bytes };
}

impl CnfReader {
    /// A reader at the beginning of a text, for formulas of variables up to `max`. Takes constant time.
    pub fn new(alloc: Global, max: u32) -> CnfReader
        requires { max ≤ MAX_VARIABLE }
        ensures { result ≡ record { max = max; fed = []; fault = None } }
    {
        CnfReader {
            alloc,
            max,
            buffer: Vec::new(alloc),
            line: 1,
            state: State::Header,
            fed: BytesSoFar::new(),
        }
    }

    /// Takes the next piece of the text, which may be empty. Takes time linear in the piece, in what is held of the line that
    /// it ends and in the literals of the clauses that it closes, and O(n log n) time for literals of one that stand in no
    /// order.
    ///
    /// # Errors
    /// The fault of every text that begins with what was fed, or `NoMemory`; and from then on that fault again.
    pub fn feed(&mut self, piece: &[u8]) -> Result<(), CnfFault>
        ensures told_again { IfSome self.old.fault (λ fault. result ≡ Err fault) }
        ensures fed { self.new.fed ≡ self.old.fed ++ piece.now }
        ensures kept { self.new.fault ≡ cnf_fault_of result }
        ensures fault { IfErr result (λ fault. is_cnf_no_memory fault.kind ≡ false
            → HasFaultAlready self.new.max self.new.fed fault) }

        // Want of memory comes only where a line needs room, and is told at that line.
        ensures memory { self.old.fault ≡ None → IfErr result (λ fault. is_cnf_no_memory fault.kind
            ≡ true → NeedsMemory self.old.max self.old.fed piece.now fault.line) }

        ensures max { self.new.max ≡ self.old.max }
    {
        self.fed = self.fed.and(piece);
        if let Some(fault) = fault_of(&self.state) {
            return Err(fault);
        }
        let state = replace(&mut self.state, State::Header);
        let (state, line) = take_piece(
            self.alloc,
            self.max,
            state,
            self.line,
            &mut self.buffer,
            piece,
        );
        let fault = fault_of(&state);
        self.state = state;
        self.line = line;
        match fault {
            None => {}
            Some(fault) => return Err(fault),
        }
        Ok(())
    }

    /// Ends the text: the formula that it spells. Takes the time of [`CnfReader::feed`] for the last line, and time linear in
    /// all clauses with their literals.
    ///
    /// # Errors
    /// The text's fault, or `NoMemory`; a fault that was told before is told again.
    pub fn finish(self) -> Result<Formula, CnfFault>
        ensures told_again { IfSome self.fault (λ fault. result ≡ Err fault) }
        ensures answer { IsAnswer self.max self.fed result }

        // Each fault is told at the last line, and want of memory only where that one needs room.
        ensures line { self.fault ≡ None
            → IfErr result (λ fault. fault.line ≡ last_number self.fed) }
        ensures memory { self.fault ≡ None → IfErr result
            (λ fault. is_cnf_no_memory fault.kind ≡ true → EndsByNumber self.max self.fed) }
    {
        if let Some(fault) = fault_of(&self.state) {
            return Err(fault);
        }
        let state = after_line(self.state, self.alloc, self.max, self.line, &self.buffer);
        close(state, self.line)
    }
}

/// The fault that is kept.
fn fault_of(state: &State) -> Option<CnfFault>
    ensures { result ≡ kept_fault state.now }
{
    match state {
        State::Faulty(fault) => Some(*fault),
        _ => None,
    }
}

/// The state where memory ran out.
fn refused_at(line: u64, e: AllocError) -> State
    ensures { kept_fault result
        ≡ Some (record { kind = CnfFaultKind.NoMemory no_memory; line = line }) }
{
    State::Faulty(CnfFault {
        kind: e.into(),
        line,
    })
}

/// The state behind a line of which a part is held, and nothing is held then unless memory ran out.
fn after_buffered_line(
    state: State,
    alloc: Global,
    max: u32,
    number: u64,
    buffer: &mut Vec<u8>,
    front: &[u8],
) -> State
    requires max { max ≤ MAX_VARIABLE }
    requires none { HasNoLineEnd buffer.old.items }
    ensures none { HasNoLineEnd buffer.new.items }
    ensures done { kept_fault result ≡ None → buffer.new.items ≡ [] }
    ensures told { kept_fault state ≡ None → IfSome (kept_fault result) (λ fault. (fault.line
        ≡ number) × (is_cnf_no_memory fault.kind ≡ true → (0 < length buffer.old.items)
        ⊎ ((buffer.old.items ≡ []) × (asks_memory state (tokens_of front.now) ≡ true)))) }
    ensures reads { (n : ℕ) → number ≡ line_number n → (lines : List (List ℕ)) → Reads max (n + 1)
        lines result (formula_from_state max n state ((buffer.old.items ++ front.now) ∷ lines)) }
{
    if buffer.is_empty() {
        return after_line(state, alloc, max, number, front);
    }
    if let Err(e) = buffer.extend_from_slice(front) {
        return refused_at(number, e);
    }
    let next = after_line(state, alloc, max, number, buffer);
    buffer.clear();
    next
}

/// The state behind the whole lines of a piece and the number of the line after them, whose beginning is held.
///
/// A line is held only where it isn't whole in its piece.
fn take_piece(
    alloc: Global,
    max: u32,
    before: State,
    first: u64,
    buffer: &mut Vec<u8>,
    piece: &[u8],
) -> (State, u64)
    requires max { max ≤ MAX_VARIABLE }
    requires none { HasNoLineEnd buffer.old.items }
    ensures taken { Taken max first before buffer.old.items piece.now result.0 result.1
        buffer.new.items }
    ensures memory { kept_fault before ≡ None
        → IfSome (kept_fault result.0) (λ fault. is_cnf_no_memory fault.kind ≡ true
        → NeedsMemoryFrom max first before buffer.old.items piece.now fault.line) }
{
    let mut state = before;
    let mut number = first;
    let mut rest = piece;
    while let Some((front, after)) = first_line(rest, 0) {
        match after_buffered_line(state, alloc, max, number, buffer, front) {
            State::Faulty(fault) => return (State::Faulty(fault), number),
            next => state = next,
        }
        number = number.saturating_add(1);
        rest = after;
    }
    if rest.is_empty() {
        return (state, number);
    }
    match buffer.extend_from_slice(rest) {
        Ok(()) => (state, number),
        Err(e) => (refused_at(number, e), number),
    }
}
