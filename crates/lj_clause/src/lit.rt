//! Literals.
ghost use Rattle.std.specs.Prelude.{◌≡◌, ◌+◌, ◌-◌, ◌*◌, ◌%◌, ◌<◌, ◌≤◌, SomeIff, neg_ℤ};
ghost use Rattle.lj_clause.specs.Literal.{IsLiteral, literal_on, variable_of, index_of};
ghost use Rattle.lj_clause.specs.Renaming.{literal_image};

use crate::renames::Renames;
use std::cmp::Ordering;
use std::fmt;
use std::marker::Model;

/// The greatest variable.
pub const MAX_VARIABLE: u32 = 134_217_727;

/// A literal: a nonzero whole number, `v` for the variable v and `-v` for its negation.
///
/// Literals are ordered by variable, and for one variable the positive literal comes first.
/// It takes four bytes.
#[derive(Clone, Copy)]
pub struct Lit {
    /// Twice the variable, and one more for its negation, so that it can index an array.
    code: u32,
}

impl Model for Lit {
    ghost use Rattle.std.specs.Prelude.{ℤ};
    ghost use Rattle.std.specs.Coded.{coded_ℤ};

    ghost Value = { ℤ };

    ghost coded = { coded_ℤ };

    ghost use Rattle.lj_clause.specs.inner.LitCode.{literal_of, IsCode, lit_code_of, literal_back};

    ghost view = { literal_of };

    ghost invariant = { IsCode };

    ghost inverse = { lit_code_of };

    ghost inverse_ok = { literal_back };
}

impl Lit {
    /// The literal of a number: `None` for 0 and for a variable beyond [`MAX_VARIABLE`]. Takes constant time.
    pub fn new(number: i32) -> Option<Lit>
        ensures { SomeIff result (IsLiteral number) number }
    {
        let variable = number.unsigned_abs();
        if variable == 0 || variable > MAX_VARIABLE {
            return None;
        }
        let sign = u32::from(number < 0);
        Some(Lit {
            code: 2 * variable + sign,
        })
    }

    /// The literal of a variable, or its negation. Takes constant time.
    #[inline]
    pub fn of(variable: u32, negative: bool) -> Lit
        requires { (0 < variable) × (variable ≤ MAX_VARIABLE) }
        ensures { result ≡ literal_on variable negative }
    {
        Lit {
            code: 2 * variable + u32::from(negative),
        }
    }

    /// The number of the literal. Takes constant time.
    pub fn get(self) -> i32
        ensures number { result ≡ self }
        ensures literal { IsLiteral result }
    {
        let variable = (self.code / 2) as i32;
        if self.code % 2 == 0 {
            variable
        } else {
            -variable
        }
    }

    /// The variable that the literal speaks of. Takes constant time.
    pub fn variable(self) -> u32
        ensures variable { result ≡ variable_of self }
        ensures in_range { (0 < result) × (result ≤ MAX_VARIABLE) }
    {
        self.code / 2
    }

    /// The place of the literal in the order of literals, so that it can index an array: twice the variable, and one
    /// more for its negation. Takes constant time.
    #[inline]
    pub fn index(self) -> usize
        ensures index { result ≡ index_of self }
        ensures in_range { result ≤ 2 * MAX_VARIABLE + 1 }
    {
        self.code as usize
    }

    /// The literal of the same variable that is true where this one isn't. Takes constant time.
    pub fn negated(self) -> Lit
        ensures { result ≡ neg_ℤ self }
    {
        Lit {
            code: turned(self.code),
        }
    }

    /// The literal with its variable renamed. Takes the time of [`Renames::variable`].
    pub fn renamed<R: Renames>(self, renaming: &R) -> Lit
        ensures { result ≡ literal_image (R.renaming renaming.now) self }
    {
        match renaming.variable(self.variable()) {
            Some(other) => Lit::of(other, self.get() < 0),
            None => self,
        }
    }
}

/// The code of the negation: the other one of the same variable. It is one instruction, without a branch.
#[inline]
fn turned(code: u32) -> u32
    ensures even { code % 2 ≡ 0 → result ≡ code + 1 }
    ensures odd { code % 2 ≡ 1 → result ≡ code - 1 }
{
    code ^ 1
}

impl PartialEq for Lit {
    ghost use Rattle.std.specs.Ordering.{eq_by_cmp};
    ghost use Rattle.std.specs.Cmp.{partial_equiv_from_equiv, eq_by_cmp_equiv};
    ghost use Rattle.lj_clause.specs.Literal.{lit_cmp};
    ghost use Rattle.lj_clause.specs.inner.Literal.{lit_cmp_total};

    ghost eq = { eq_by_cmp lit_cmp };

    ghost laws = { partial_equiv_from_equiv (eq_by_cmp_equiv lit_cmp_total) };

    fn eq(&self, other: &Lit) -> bool {
        self.code == other.code
    }
}

impl Eq for Lit {
    ghost use Rattle.std.specs.Cmp.{eq_by_cmp_equiv};
    ghost use Rattle.lj_clause.specs.inner.Literal.{lit_cmp_total};

    ghost laws = { eq_by_cmp_equiv lit_cmp_total };
}

impl PartialOrd for Lit {
    ghost use Rattle.std.proofs.Common.{rules};
    ghost use Rattle.std.specs.Cmp.Rules.{comparing};
    ghost use Rattle.std.specs.Ordering.{as_partial_cmp};
    ghost use Rattle.lj_clause.specs.Literal.{lit_cmp};
    ghost use Rattle.lj_clause.specs.inner.Literal.{lit_cmp_total};

    ghost partial_cmp = { as_partial_cmp lit_cmp };

    ghost laws = { Prim.search (comparing, rules, lit_cmp_total) };

    fn partial_cmp(&self, other: &Lit) -> Option<Ordering> {
        Some(self.cmp(other))
    }
}

impl Ord for Lit {
    ghost use Rattle.std.proofs.Common.{rules};
    ghost use Rattle.std.specs.Cmp.Rules.{comparing};
    ghost use Rattle.lj_clause.specs.Literal.{lit_cmp};
    ghost use Rattle.lj_clause.specs.inner.Literal.{lit_cmp_total};

    ghost cmp = { lit_cmp };

    ghost total = { lit_cmp_total };

    ghost matches_partial_cmp = { Prim.search (comparing, rules) };

    ghost matches_eq = { Prim.search (comparing, rules) };

    fn cmp(&self, other: &Lit) -> Ordering {
        self.code.cmp(&other.code)
    }
}

impl fmt::Display for Lit {
    ghost use Rattle.std.specs.Prelude.{Some};
    ghost use Rattle.std.specs.Fmt.{signed_decimal};

    ghost output = { λ l. Some (signed_decimal l) };

    fn fmt<W: fmt::Write>(&self, f: &mut fmt::Formatter<W>) -> fmt::Result {
        let number = self.get();
        write!(f, "{number}")
    }
}

impl fmt::Debug for Lit {
    ghost use Rattle.std.specs.Prelude.{Some};
    ghost use Rattle.std.specs.Fmt.{signed_decimal};

    ghost debug_output = { λ l. Some (signed_decimal l) };

    fn fmt<W: fmt::Write>(&self, f: &mut fmt::Formatter<W>) -> fmt::Result {
        write!(f, "{self}")
    }
}
