//! Entries that are written as words and literals.
ghost use Rattle.std.specs.Prelude.{◌≡◌, ◌+◌, ◌*◌, ◌<◌, ◌≤◌, ◌++◌, length, vec_len, vec_capacity};
ghost use Rattle.lj_clause.specs.LiteralSet.{literals};
ghost use Rattle.lj_book.specs.inner.Records.{lemma_lits, entering_kind, head_encoding, add_encoding, drop_encoding, adopt_encoding, import_encoding, leave_encoding, addition_numbers};

use super::{ADOPT, DROP, IMPORT, KINDS, LEAVE, entering_kind};
use crate::encoding::{put_groups, put_list, put_number, put_numbers};
use crate::lent_addition::LentAddition;
use lj_clause::{Clause, Lit};
use lj_text::Numbers;

/// So many literals are copied one by one, and more as they stand.
const MOST_ONE_BY_ONE: usize = 8;

/// Puts the first number of an entry behind the words, which have room for it.
#[inline]
pub(super) fn put_head(encoding: &mut Vec<u32>, seat: u32, kind: u64)
    requires kind { kind < 8 }
    requires capacity { vec_len encoding.old + 3 ≤ vec_capacity encoding.old }
    ensures encoding { encoding.new.items ≡ encoding.old.items ++ head_encoding seat kind }
    ensures len { vec_len encoding.new ≤ vec_len encoding.old + 3 }
    ensures capacity { vec_capacity encoding.old ≤ vec_capacity encoding.new }
{
    put_number(encoding, KINDS * u64::from(seat) + kind);
}

/// Puts the literals of a lemma behind the others, which have room for them: its pivot first.
#[inline]
fn put_lemma(lits: &mut Vec<Lit>, step: &LentAddition<'_>)
    requires { vec_len lits.old + length (lemma_lits step.now.lemma) ≤ vec_capacity lits.old }
    ensures lits { lits.new.items ≡ lits.old.items ++ lemma_lits step.now.lemma }
    ensures len { vec_len lits.new ≡ vec_len lits.old + length (lemma_lits step.now.lemma) }
{
    if let Some(pivot) = step.lemma.pivot() {
        lits.push_reserved(pivot);
    }
    put_lits(lits, step.clause.lits());
}

/// Puts literals behind the others, which have room for them.
#[inline]
fn put_lits(lits: &mut Vec<Lit>, more: &[Lit])
    requires { vec_len lits.old + length more.now ≤ vec_capacity lits.old }
    ensures lits { lits.new.items ≡ lits.old.items ++ more.now }
    ensures len { vec_len lits.new ≡ vec_len lits.old + length more.now }
{
    if more.len() > MOST_ONE_BY_ONE {
        lits.extend_from_slice(more).unwrap();
        return;
    }
    for lit in more {
        lits.push_reserved(*lit);
    }
}

/// Puts the words and the literals of a seat's addition, or of an import that adds its clause, behind the others, which have
/// room for them.
#[inline(always)]
pub(super) fn put_addition(
    encoding: &mut Vec<u32>,
    lits: &mut Vec<Lit>,
    seat: u32,
    own: u64,
    step: &LentAddition<'_>,
    is_import: bool,
)
    requires encoding { vec_len encoding.old + 3 * addition_numbers step.now ≤ vec_capacity
        encoding.old }
    requires lits { vec_len lits.old + length (lemma_lits step.now.lemma) ≤ vec_capacity lits.old }
    ensures encoding { encoding.new.items
        ≡ encoding.old.items
        ++ add_encoding (entering_kind is_import) seat own step.now (length lits.old.items) }
    ensures lits { lits.new.items ≡ lits.old.items ++ lemma_lits step.now.lemma }
{
    let at = lits.len();
    put_lemma(lits, step);
    let count = lits.len() - at;
    put_head(encoding, seat, entering_kind(is_import));
    put_number(encoding, own);
    put_number(encoding, step.number);
    put_number(encoding, at as u64);
    put_number(encoding, count as u64);
    put_list(encoding, step.hints);
    put_groups(encoding, step.groups);
}

/// Puts the words of a seat's drop behind the others, which have room for them.
pub(super) fn put_drop(encoding: &mut Vec<u32>, seat: u32, given: &Numbers, died: &[u64])
    requires { vec_len encoding.old + 3 * (3 + length given.now + length died.now)
        ≤ vec_capacity encoding.old }
    ensures { encoding.new.items ≡ encoding.old.items ++ drop_encoding seat given.now died.now }
{
    put_head(encoding, seat, DROP);
    put_list(encoding, given);
    put_numbers(encoding, died);
}

/// Puts the words of a seat's adoption behind the others, which have room for them.
pub(super) fn put_adopt(encoding: &mut Vec<u32>, seat: u32, own: u64, joint: u64)
    requires { vec_len encoding.old + 9 ≤ vec_capacity encoding.old }
    ensures { encoding.new.items ≡ encoding.old.items ++ adopt_encoding seat own joint }
{
    put_head(encoding, seat, ADOPT);
    put_number(encoding, own);
    put_number(encoding, joint);
}

/// Puts the words and the literals of a seat's import behind the others, which have room for them.
pub(super) fn put_import(
    encoding: &mut Vec<u32>,
    lits: &mut Vec<Lit>,
    seat: u32,
    own: u64,
    clause: &Clause,
)
    requires encoding { vec_len encoding.old + 12 ≤ vec_capacity encoding.old }
    requires lits { vec_len lits.old + length (literals clause.now) ≤ vec_capacity lits.old }
    ensures encoding { encoding.new.items
        ≡ encoding.old.items ++ import_encoding seat own clause.now (length lits.old.items) }
    ensures lits { lits.new.items ≡ lits.old.items ++ literals clause.now }
{
    let at = lits.len();
    let literals = clause.lits();
    lits.extend_from_slice(literals).unwrap();
    put_head(encoding, seat, IMPORT);
    put_number(encoding, own);
    put_number(encoding, at as u64);
    put_number(encoding, literals.len() as u64);
}

/// Puts the words of a seat's leave behind the others, which have room for them.
pub(super) fn put_leave(encoding: &mut Vec<u32>, seat: u32, died: &[u64])
    requires { vec_len encoding.old + 3 * (2 + length died.now) ≤ vec_capacity encoding.old }
    ensures { encoding.new.items ≡ encoding.old.items ++ leave_encoding seat died.now }
{
    put_head(encoding, seat, LEAVE);
    put_numbers(encoding, died);
}
