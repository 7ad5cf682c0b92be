//! Entries that are compared with what was written.
ghost use Rattle.std.specs.Prelude.{◌≡◌, ◌↔◌, ◌<◌, IsTrue, IfSome, IfNone};
ghost use Rattle.lj_clause.specs.LiteralSet.{LiteralSet, literals, from_literals};
ghost use Rattle.lj_text.specs.Needed.{if_some};
ghost use Rattle.lj_book.specs.declared.entry.Call.TheVariants as calls;
ghost use Rattle.lj_book.specs.Calls.{binding_entry};
ghost use Rattle.lj_book.specs.inner.Encoding.{number_in, list_in, hint_groups_in};
ghost use Rattle.lj_book.specs.inner.Records.{lemma_lits, lits_in, call_lits, entry_lits, entering_entry, addition_in, call_in, step_in, entry_in, read_in, named_in};

use super::reading::named;
use super::{ADDITION, ADOPT, DROP, IMPORT, KINDS, PART, entering_kind};
use crate::encoding::{groups_match, list_matches, number, numbers_match};
use crate::entry::{Call, Entry};
use crate::same::same_lemma;
use lj_clause::{ClauseView, Lemma, Lit};
use lj_text::{Addition, Step};

/// Whether these are the literals of the lemma, its pivot first.
fn are_of_lemma(lits: &[Lit], lemma: &Lemma) -> bool
    ensures { IsTrue result ↔ (lits.now ≡ lemma_lits lemma.now) }
{
    match (lemma.pivot(), lits) {
        (Some(pivot), [first, others @ ..]) => {
            *first == pivot && same_lits(others, lemma.clause().lits())
        }
        (Some(_), []) => false,
        (None, _) => same_lits(lits, lemma.clause().lits()),
    }
}

/// Whether the two lists are the same.
pub(super) fn same_lits(lits: &[Lit], others: &[Lit]) -> bool
    ensures { IsTrue result ↔ (lits.now ≡ others.now) }
{
    lits == others
}

/// Whether the hints and the groups at the front of the words are those of the addition.
fn are_hints_of(encoding: &[u32], addition: &Addition) -> bool
    ensures { IsTrue result ↔ (((list_in encoding.now).0 ≡ addition.now.hints)
        × ((hint_groups_in (list_in encoding.now).1).0 ≡ addition.now.groups)) }
{
    match list_matches(encoding, &addition.hints) {
        Some(rest) => groups_match(rest, &addition.groups).is_some(),
        None => false,
    }
}

/// Whether the addition behind its own number is this one.
fn is_added(lits: &[Lit], encoding: &[u32], addition: &Addition) -> bool
    requires { lits_in lits.now (number_in encoding.now).1
        ≡ lemma_lits (addition_in lits.now encoding.now).lemma }
    ensures { IsTrue result ↔ (addition_in lits.now encoding.now ≡ addition.now) }
{
    let (joint, rest) = number(encoding);
    let (literals, rest) = named(lits, rest);
    let _ = addition.lemma.pivot();
    if joint != addition.number {
        return false;
    }
    if !are_of_lemma(literals, &addition.lemma) {
        return false;
    }
    are_hints_of(rest, addition)
}

/// Whether the words behind the first number of an addition are those of this call and this step.
fn is_addition(lits: &[Lit], encoding: &[u32], call: &Call, step: &Option<Step>) -> bool
    requires { lits_in lits.now (number_in (number_in encoding.now).1).1
        ≡ lemma_lits (addition_in lits.now (number_in encoding.now).1).lemma }
    ensures { IsTrue result
        ↔ ((call_in lits.now 0 encoding.now ≡ call.now)
        × (step_in lits.now 0 encoding.now ≡ step.now)) }
{
    let (found, rest) = number(encoding);
    match (call, step) {
        (Call::Add { own, lemma }, Some(Step::Add(addition))) => {
            found == *own && same_lemma(lemma, &addition.lemma) && is_added(lits, rest, addition)
        }
        _ => false,
    }
}

/// Whether the deletion of the list at the front of the words, if it has a number, is this step.
fn is_deletion(encoding: &[u32], step: &Option<Step>) -> bool
    ensures { IsTrue result ↔ (if_some (list_in encoding.now).0 ≡ step.now) }
{
    match step {
        Some(Step::Delete { numbers }) => {
            !numbers.is_empty() && list_matches(encoding, numbers).is_some()
        }
        Some(Step::Add(_)) => false,
        None => numbers_match(encoding, &[]).is_some(),
    }
}

/// Whether the words behind the first number of a drop are those of this call and this step.
fn is_drop(lits: &[Lit], encoding: &[u32], call: &Call, step: &Option<Step>) -> bool
    ensures { IsTrue result ↔ ((call_in lits.now 1 encoding.now ≡ call.now)
        × (step_in lits.now 1 encoding.now ≡ step.now)) }
{
    let Call::Drop { numbers } = call else {
        return false;
    };
    match list_matches(encoding, numbers) {
        Some(rest) => is_deletion(rest, step),
        None => false,
    }
}

/// Whether the words behind the first number of an adoption are those of this call and this step.
fn is_adoption(lits: &[Lit], encoding: &[u32], call: &Call, step: &Option<Step>) -> bool
    ensures { IsTrue result ↔ ((call_in lits.now 2 encoding.now ≡ call.now)
        × (step_in lits.now 2 encoding.now ≡ step.now)) }
{
    let (found, rest) = number(encoding);
    let (bound, _) = number(rest);
    match call {
        Call::Adopt { own, joint } => found == *own && bound == *joint && step.is_none(),
        _ => false,
    }
}

/// Whether the words behind the first number of an import are those of this call and this step.
fn is_import(lits: &[Lit], encoding: &[u32], call: &Call, step: &Option<Step>) -> bool
    requires { lits_in lits.now (number_in encoding.now).1
        ≡ literals (from_literals (lits_in lits.now (number_in encoding.now).1)) }
    ensures { IsTrue result ↔ ((call_in lits.now 3 encoding.now ≡ call.now)
        × (step_in lits.now 3 encoding.now ≡ step.now)) }
{
    let (found, rest) = number(encoding);
    let (literals, _) = named(lits, rest);
    let Call::Import { own, clause } = call else {
        return false;
    };
    if found != *own {
        return false;
    }
    if !same_lits(literals, clause.lits()) {
        return false;
    }
    step.is_none()
}

/// Whether the words behind the first number of an import that adds its clause are those of this call and this step.
fn is_part(lits: &[Lit], encoding: &[u32], call: &Call, step: &Option<Step>) -> bool
    requires { lits_in lits.now (number_in (number_in encoding.now).1).1
        ≡ lemma_lits (addition_in lits.now (number_in encoding.now).1).lemma }
    ensures { IsTrue result ↔ ((call_in lits.now 5 encoding.now ≡ call.now)
        × (step_in lits.now 5 encoding.now ≡ step.now)) }
{
    let (found, rest) = number(encoding);
    match (call, step) {
        (Call::Import { own, clause }, Some(Step::Add(addition))) => {
            found == *own && clause.same(addition.lemma.clause()) && is_added(lits, rest, addition)
        }
        _ => false,
    }
}

/// Whether the words behind the first number of an entry of a kind are those of this call and this step.
fn is_of_kind(lits: &[Lit], kind: u64, encoding: &[u32], call: &Call, step: &Option<Step>) -> bool
    requires { named_in lits.now kind encoding.now
        ≡ call_lits (call_in lits.now kind encoding.now) (step_in lits.now kind encoding.now) }
    ensures { IsTrue result ↔ ((call_in lits.now kind encoding.now ≡ call.now)
        × (step_in lits.now kind encoding.now ≡ step.now)) }
{
    match kind {
        ADDITION => is_addition(lits, encoding, call, step),
        DROP => is_drop(lits, encoding, call, step),
        ADOPT => is_adoption(lits, encoding, call, step),
        IMPORT => is_import(lits, encoding, call, step),
        PART => is_part(lits, encoding, call, step),
        _ => matches!(call, Call::Leave) && is_deletion(encoding, step),
    }
}

/// Whether the entry whose words these begin with is that of the seat's addition under its own number by this step, or of its
/// import that adds its clause so.
pub(super) fn is_line(
    lits: &[Lit],
    encoding: &[u32],
    seat: u32,
    own: u64,
    addition: &Addition,
    is_import: bool,
) -> bool
    requires { (read_in lits.now encoding.now).1
        ≡ entry_lits (read_in lits.now encoding.now).0 }
    ensures { IsTrue result
        ↔ (entry_in lits.now encoding.now ≡ entering_entry is_import seat own addition.now) }
{
    let (head, rest) = number(encoding);
    let (found, behind) = number(rest);
    if head / KINDS != u64::from(seat) || head % KINDS != entering_kind(is_import) {
        return false;
    }
    found == own && is_added(lits, behind, addition)
}

/// The clause of the seat's import under its own number, if the entry whose words these begin with is one without a step.
pub(super) fn imported<'a>(
    lits: &'a [Lit],
    encoding: &[u32],
    seat: u32,
    own: u64,
) -> Option<ClauseView<'a>>
    requires { (read_in lits.now encoding.now).1
        ≡ entry_lits (read_in lits.now encoding.now).0 }
    ensures some { IfSome result (λ c. entry_in lits.now encoding.now
        ≡ binding_entry seat (calls.Import own c)) }
    ensures none { IfNone result ((c : LiteralSet)
        → entry_in lits.now encoding.now ≡ binding_entry seat (calls.Import own c) → ⊥) }
{
    let (head, rest) = number(encoding);
    let (found, behind) = number(rest);
    if head / KINDS != u64::from(seat) || head % KINDS != IMPORT {
        return None;
    }
    if found != own {
        return None;
    }
    let (literals, _) = named(lits, behind);
    Some(ClauseView::new(literals))
}

/// Whether the entry whose words these begin with is this one.
pub(super) fn is_entry(lits: &[Lit], encoding: &[u32], entry: &Entry) -> bool
    requires named { (read_in lits.now encoding.now).1
        ≡ entry_lits (read_in lits.now encoding.now).0 }
    requires seated { (entry_in lits.now encoding.now).seat < 4294967296 }
    ensures { IsTrue result ↔ (entry_in lits.now encoding.now ≡ entry.now) }
{
    let (head, rest) = number(encoding);
    head / KINDS == u64::from(entry.seat)
        && is_of_kind(lits, head % KINDS, rest, &entry.call, &entry.step)
}
