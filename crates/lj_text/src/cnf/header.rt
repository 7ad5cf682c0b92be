//! The header of a formula.
ghost use Rattle.std.specs.Prelude.{◌≡◌, ◌≤◌, ◌∷◌, ℕ, [], false, MatchResult, IfNone, IfSome, IfOk, IfErr, Ok};
ghost use Rattle.std.specs.Str.{byte};
ghost use Rattle.lj_text.specs.Bytes.{tokens_of};
ghost use Rattle.lj_text.specs.Lines.{is_letter};
ghost use Rattle.lj_text.specs.Cnf.{fault_in, header_after, header_of};
ghost use Rattle.lj_text.specs.declared.cnf.fault.CnfFaultKind.TheVariants as kinds;
ghost use Rattle.lj_text.specs.inner.CnfReading.{IsCnfTold};
ghost use Rattle.lj_text.specs.CnfRead.{is_cnf_no_memory};
ghost use Rattle.lj_clause.specs.declared.lit.TheConstants.{MAX_VARIABLE};

use super::fault::CnfFaultKind;
use crate::bytes::{digits_value, next_token};
use lj_clause::MAX_CLAUSES;

/// The tokens of a line that has three.
fn three_tokens(bytes: &[u8]) -> Option<(&[u8], &[u8], &[u8])>
    ensures none { IfNone result ((max line : ℕ)
        → header_after max line (tokens_of bytes.now) ≡ fault_in line kinds.BadHeader) }
    ensures some { IfSome result
        (λ found. tokens_of bytes.now ≡ found.0.now ∷ found.1.now ∷ found.2.now ∷ []) }
{
    let (token_number, after) = next_token(bytes)?;
    let (variables, after) = next_token(after)?;
    let (clauses, after) = next_token(after)?;
    match next_token(after) {
        None => Some((token_number, variables, clauses)),
        Some(_) => None,
    }
}

/// The numbers of variables and of clauses behind a header's `p`.
fn read_sizes(max: u32, bytes: &[u8]) -> Result<(u32, u32), CnfFaultKind>
    requires { max ≤ MAX_VARIABLE }
    ensures in_range { IfOk result (λ sizes. sizes.0 ≤ max) }
    ensures no_memory { IfErr result (λ kind. is_cnf_no_memory kind ≡ false) }
    ensures sizes { (line : ℕ)
        → MatchResult result (λ sizes. header_after max line (tokens_of bytes.now) ≡ Ok sizes)
        (λ kind. IsCnfTold kind line (header_after max line (tokens_of bytes.now))) }
{
    match three_tokens(bytes) {
        Some(([b'c', b'n', b'f'], variables, clauses)) => match (
            digits_value(variables),
            digits_value(clauses),
        ) {
            (Some(variables), Some(clauses)) => {
                if clauses > MAX_CLAUSES as u64 {
                    Err(CnfFaultKind::BadHeader)
                } else if variables > u64::from(max) {
                    Err(CnfFaultKind::VariableRange)
                } else {
                    Ok((variables as u32, clauses as u32))
                }
            }
            _ => Err(CnfFaultKind::BadHeader),
        },
        _ => Err(CnfFaultKind::BadHeader),
    }
}

/// Whether a token is the `p` of a header.
fn is_header(token: &[u8]) -> bool
    ensures { result ≡ is_letter (byte "p") token.now }
{
    match token {
        [b'p'] => true,
        _ => false,
    }
}

/// The numbers of variables and of clauses that a header line says, whose first token this is.
pub(super) fn read_header(max: u32, token: &[u8], after: &[u8]) -> Result<(u32, u32), CnfFaultKind>
    requires { max ≤ MAX_VARIABLE }
    ensures in_range { IfOk result (λ sizes. sizes.0 ≤ max) }
    ensures no_memory { IfErr result (λ kind. is_cnf_no_memory kind ≡ false) }
    ensures sizes { (line : ℕ) → MatchResult result
        (λ sizes. header_of max line (token.now ∷ tokens_of after.now) ≡ Ok sizes)
        (λ kind. IsCnfTold kind line (header_of max line (token.now ∷ tokens_of after.now))) }
{
    if is_header(token) {
        read_sizes(max, after)
    } else {
        Err(CnfFaultKind::NoHeader)
    }
}
