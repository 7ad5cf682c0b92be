//! The clauses of a formula.
ghost use Rattle.std.specs.Prelude.{◌≡◌, ◌≤◌, ◌∷◌, ◌++◌, ◌<◌, ℕ, List, [], Bool, true, false, pos, unsigned_abs, IfErr, MatchResult, Ok};
ghost use Rattle.std.specs.Str.{byte};
ghost use Rattle.lj_clause.specs.ClauseMap.{formula_of};
ghost use Rattle.lj_text.specs.Bytes.{begins, number_of};
ghost use Rattle.lj_text.specs.Cnf.{BodyToken, Percent, Number, number_at, body_token_at};
ghost use Rattle.lj_text.specs.inner.CnfReading.{Goes, IsCnfTold, IsNumberUpTo};
ghost use Rattle.lj_text.specs.CnfReading.{formula_after, is_literal_kept};
ghost use Rattle.lj_text.specs.CnfRead.{is_cnf_no_memory};
ghost use Rattle.lj_clause.specs.declared.lit.TheConstants.{MAX_VARIABLE};

use super::fault::CnfFaultKind;
use crate::bytes::{TokenNumber, number_in_token};
use lj_clause::{Clause, Formula, Lit};
use std::alloc::Global;
use std::marker::Model;

/// The clauses so far, and the one that is open.
#[derive(Debug, Drop)]
pub(super) struct Body {
    alloc: Global,
    variables: u32,
    /// How many clauses are to come, with the one that is open.
    left: u32,
    clauses: Vec<Clause>,
    /// The literals of the clause that is open.
    literals: Vec<Lit>,
}

impl Model for Body {
    ghost use Rattle.lj_text.specs.CnfReading.{Begun};
    ghost use Rattle.lj_text.specs.inner.Codes.{begun_code};
    ghost use Rattle.lj_text.specs.inner.CnfReading.{IsBegun};

    ghost Value = { Begun };

    ghost coded = { begun_code };

    ghost view = { λ b. record {
      variables = b.variables;
      left = b.left;
      clauses = b.clauses.items;
      literals = b.literals.items;
    } };

    ghost invariant = { λ b. IsBegun (record {
      variables = b.variables;
      left = b.left;
      clauses = b.clauses.items;
      literals = b.literals.items;
    }) };
}

impl Body {
    /// A formula of these sizes, of which nothing was read.
    pub(super) fn new(alloc: Global, variables: u32, clauses: u32) -> Body
        requires { variables ≤ MAX_VARIABLE }
        ensures { result
            ≡ record { variables = variables; left = clauses; clauses = []; literals = [] } }
    {
        Body {
            alloc,
            variables,
            left: clauses,
            clauses: Vec::new(alloc),
            literals: Vec::new(alloc),
        }
    }

    /// Takes a literal.
    fn take_literal(&mut self, number: i32) -> Result<(), CnfFaultKind>
        requires some { 0 < unsigned_abs number }
        requires in_range { unsigned_abs number ≤ self.old.variables }
        ensures left { MatchResult result (λ _. 0 < self.old.left)
            (λ kind. is_cnf_no_memory kind ≡ true → 0 < self.old.left) }
        ensures reads { (last line : ℕ) (rest : List BodyToken)
            → MatchResult result (λ _. formula_after self.old last (Number line number ∷ rest)
            ≡ formula_after self.new last rest) (λ kind. IsCnfTold kind line
            (formula_after self.old last (Number line number ∷ rest))) }
    {
        if self.left == 0 {
            return Err(CnfFaultKind::ClauseCount);
        }
        match Lit::new(number) {
            Some(literal) => {
                self.literals.push(literal)?;
                Ok(())
            }
            None => Err(CnfFaultKind::VariableRange),
        }
    }

    /// Takes the 0 that closes a clause.
    fn close_clause(&mut self) -> Result<(), CnfFaultKind>
        ensures left { MatchResult result (λ _. 0 < self.old.left)
            (λ kind. is_cnf_no_memory kind ≡ true → 0 < self.old.left) }
        ensures reads { (last line : ℕ) (rest : List BodyToken)
            → MatchResult result (λ _. formula_after self.old last (Number line (pos 0) ∷ rest)
            ≡ formula_after self.new last rest) (λ kind. IsCnfTold kind line
            (formula_after self.old last (Number line (pos 0) ∷ rest))) }
    {
        if self.left == 0 {
            return Err(CnfFaultKind::ClauseCount);
        }
        let clause = Clause::from_lits(self.alloc, &self.literals)?;
        self.clauses.push(clause)?;
        self.literals.clear();
        self.left -= 1;
        Ok(())
    }

    /// Takes a token that begins with `%`, which ends the formula where a clause would begin.
    fn take_percent(&self) -> Result<(), CnfFaultKind>
        ensures no_memory { IfErr result (λ kind. is_cnf_no_memory kind ≡ false) }
        ensures reads { (last line : ℕ) (rest : List BodyToken)
            → MatchResult result (λ _. formula_after self.now last (Percent line ∷ rest)
            ≡ Ok (formula_of self.now.variables self.now.clauses))
            (λ kind. IsCnfTold kind line (formula_after self.now last (Percent line ∷ rest))) }
    {
        if !self.literals.is_empty() {
            Err(CnfFaultKind::BadNumber)
        } else if self.left > 0 {
            Err(CnfFaultKind::ClauseCount)
        } else {
            Ok(())
        }
    }

    /// Takes a token that isn't to end the formula.
    fn take_number(&mut self, token: &[u8]) -> Result<(), CnfFaultKind>
        ensures memory { MatchResult result
            (λ _. is_literal_kept self.old (number_of token.now) ≡ true) (λ kind. is_cnf_no_memory
            kind ≡ true → is_literal_kept self.old (number_of token.now) ≡ true) }
        ensures reads { (last line : ℕ) (rest : List BodyToken) → MatchResult result
            (λ _. formula_after self.old last (number_at line (number_of token.now) ∷ rest)
            ≡ formula_after self.new last rest) (λ kind. IsCnfTold kind line
            (formula_after self.old last (number_at line (number_of token.now) ∷ rest))) }
    {
        let number = number_up_to(token, self.variables)?;
        if number == 0 {
            self.close_clause()
        } else {
            self.take_literal(number)
        }
    }

    /// Takes a token, and answers whether it ends the formula.
    pub(super) fn take(&mut self, token: &[u8]) -> Result<bool, CnfFaultKind>
        ensures memory { MatchResult result
            (λ ended. ended ≡ false → is_literal_kept self.old (number_of token.now) ≡ true)
            (λ kind. is_cnf_no_memory kind ≡ true
            → is_literal_kept self.old (number_of token.now) ≡ true) }
        ensures reads { (last line : ℕ) (rest : List BodyToken)
            → Goes last line (token.now ∷ []) rest self.old self.new result }
    {
        if is_percent(token) {
            self.take_percent()?;
            return Ok(true);
        }
        self.take_number(token)?;
        Ok(false)
    }

    /// The formula at the end of the input.
    pub(super) fn close(self) -> Result<Formula, CnfFaultKind>
        ensures no_memory { IfErr result (λ kind. is_cnf_no_memory kind ≡ false) }
        ensures reads { (last : ℕ)
            → MatchResult result (λ formula. formula_after self last [] ≡ Ok formula)
            (λ kind. IsCnfTold kind last (formula_after self last [])) }
    {
        if !self.literals.is_empty() {
            Err(CnfFaultKind::Truncated)
        } else if self.left > 0 {
            Err(CnfFaultKind::ClauseCount)
        } else {
            Ok(self.formula())
        }
    }

    /// The formula of the clauses so far.
    pub(super) fn formula(self) -> Formula
        ensures { result ≡ formula_of self.variables self.clauses }
    {
        Formula::new(self.variables, self.clauses).unwrap()
    }
}

/// The number that a token is, whose absolute value is at most the number of variables.
fn number_up_to(token: &[u8], variables: u32) -> Result<i32, CnfFaultKind>
    requires { variables ≤ MAX_VARIABLE }
    ensures { IsNumberUpTo variables (number_of token.now) result }
{
    match number_in_token(token) {
        TokenNumber::NoNumber => Err(CnfFaultKind::BadNumber),
        TokenNumber::Zero => Ok(0),
        TokenNumber::Positive(variable) if variable <= u64::from(variables) => Ok(variable as i32),
        TokenNumber::Negative(variable) if variable <= u64::from(variables) => Ok(
            -(variable as i32),
        ),
        _ => Err(CnfFaultKind::VariableRange),
    }
}

/// Whether a token begins with `%`.
fn is_percent(token: &[u8]) -> bool
    ensures { result ≡ begins (byte "%") token.now }
{
    match token {
        [b'%', ..] => true,
        _ => false,
    }
}
