//! How far a formula was read.
ghost use Rattle.std.specs.Prelude.{◌≡◌, ◌≤◌, ◌+◌, ◌∷◌, ℕ, List, [], true, false, None, IfSome, IfErr, MatchResult, Ok, Err};
ghost use Rattle.lj_text.specs.Bytes.{tokens_of, line_number};
ghost use Rattle.lj_text.specs.Cnf.{BodyToken, header_of, body_of};
ghost use Rattle.lj_text.specs.Lines.{then_read};
ghost use Rattle.lj_text.specs.inner.CnfReading.{IsCnfTold, Goes, body_tokens_behind};
ghost use Rattle.lj_text.specs.CnfReading.{formula_after, keeps_first};
ghost use Rattle.lj_text.specs.CnfRead.{is_cnf_no_memory};
ghost use Rattle.lj_text.specs.inner.CnfResuming.{Reads, ReadsOn, asks_memory, kept_fault, formula_from_state};
ghost use Rattle.lj_clause.specs.declared.lit.TheConstants.{MAX_VARIABLE};

use super::body::Body;
use super::fault::{CnfFault, CnfFaultKind};
use super::header::read_header;
use crate::bytes::next_token;
use lj_clause::Formula;
use std::alloc::Global;

/// How far a formula was read.
#[derive(Debug, Drop)]
pub(super) enum State {
    /// The header is to come.
    Header,
    /// Clauses are to come.
    Clauses(Body),
    /// A `%` has ended the formula.
    Ended(Body),
    /// The text has a fault, or memory ran out.
    Faulty(CnfFault),
}

/// Takes the tokens of a line of the clauses, and answers whether one of them ends the formula.
fn take_tokens(body: &mut Body, bytes: &[u8]) -> Result<bool, CnfFaultKind>
    ensures memory { IfErr result
        (λ kind. is_cnf_no_memory kind ≡ true → keeps_first body.old (tokens_of bytes.now) ≡ true) }
    ensures reads { (last line : ℕ) (rest : List BodyToken)
        → Goes last line (tokens_of bytes.now) rest body.old body.new result }
{
    let mut left = bytes;
    while let Some((token, after)) = next_token(left) {
        if body.take(token)? {
            return Ok(true);
        }
        left = after;
    }
    Ok(false)
}

/// The state behind a header line.
fn begin(alloc: Global, max: u32, number: u64, token: &[u8], after: &[u8]) -> State
    requires { max ≤ MAX_VARIABLE }
    ensures told { IfSome (kept_fault result)
        (λ fault. (fault.line ≡ number) × (is_cnf_no_memory fault.kind ≡ false)) }
    ensures reads { (n : ℕ) (lines : List (List ℕ)) → Reads max n lines result
        (then_read (header_of max number (token.now ∷ tokens_of after.now)) (body_of n lines)) }
{
    match read_header(max, token, after) {
        Ok((variables, clauses)) => State::Clauses(Body::new(alloc, variables, clauses)),
        Err(kind) => State::Faulty(CnfFault { kind, line: number }),
    }
}

/// The state behind a line of the clauses.
fn go_on(mut body: Body, number: u64, bytes: &[u8]) -> State
    ensures told { IfSome (kept_fault result) (λ fault. (fault.line ≡ number)
        × (is_cnf_no_memory fault.kind ≡ true → keeps_first body (tokens_of bytes.now) ≡ true)) }
    ensures reads { (last : ℕ) (rest : List BodyToken) → ReadsOn last rest result
        (formula_after body last (body_tokens_behind number (tokens_of bytes.now) rest)) }
{
    match take_tokens(&mut body, bytes) {
        Ok(true) => State::Ended(body),
        Ok(false) => State::Clauses(body),
        Err(kind) => State::Faulty(CnfFault { kind, line: number }),
    }
}

/// The state behind the line with this number.
pub(super) fn after_line(state: State, alloc: Global, max: u32, number: u64, bytes: &[u8]) -> State
    requires { max ≤ MAX_VARIABLE }
    ensures told { kept_fault state ≡ None
        → IfSome (kept_fault result) (λ fault. (fault.line ≡ number)
        × (is_cnf_no_memory fault.kind ≡ true → asks_memory state (tokens_of bytes.now) ≡ true)) }
    ensures reads { (n : ℕ) → number ≡ line_number n → (lines : List (List ℕ))
        → Reads max (n + 1) lines result (formula_from_state max n state (bytes.now ∷ lines)) }
{
    match next_token(bytes) {
        None | Some(([b'c', ..], _)) => state,
        Some((token, after)) => match state {
            State::Header => begin(alloc, max, number, token, after),
            State::Clauses(body) => go_on(body, number, bytes),
            State::Ended(body) => State::Ended(body),
            State::Faulty(fault) => State::Faulty(fault),
        },
    }
}

/// The formula at the end of the input, whose last line has this number.
pub(super) fn close(state: State, number: u64) -> Result<Formula, CnfFault>
    ensures told_again { IfSome (kept_fault state) (λ fault. result ≡ Err fault) }
    ensures told { kept_fault state ≡ None
        → IfErr result (λ fault. (fault.line ≡ number) × (is_cnf_no_memory fault.kind ≡ false)) }
    ensures reads { (max n : ℕ) → number ≡ line_number n
        → MatchResult result (λ formula. formula_from_state max (n + 1) state [] ≡ Ok formula)
        (λ fault. IsCnfTold fault.kind fault.line (formula_from_state max (n + 1) state [])) }
{
    match state {
        State::Header => Err(CnfFault {
            kind: CnfFaultKind::NoHeader,
            line: number,
        }),
        State::Clauses(body) => match body.close() {
            Ok(formula) => Ok(formula),
            Err(kind) => Err(CnfFault { kind, line: number }),
        },
        State::Ended(body) => Ok(body.formula()),
        State::Faulty(fault) => Err(fault),
    }
}
