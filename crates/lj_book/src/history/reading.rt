//! Entries that are read from words and literals.
ghost use Rattle.std.specs.Prelude.{◌≡◌, ◌≢◌, ◌<◌, IfOk, OnErr, None, drop, option_copied, option_map, slice_get};
ghost use Rattle.lj_text.specs.Needed.{if_some};
ghost use Rattle.lj_book.specs.inner.Encoding.{number_in, list_in};
ghost use Rattle.lj_book.specs.inner.Records.{some_lits, lits_in, behind_lits, addition_in, seat_in, call_in, step_in, entry_in};

use super::{ADDITION, ADOPT, DROP, IMPORT, KINDS, PART};
use crate::encoding::{behind_list, groups, list, number};
use crate::entry::{Call, Entry};
use lj_clause::{Clause, Lemma, Lit, NoMemory};
use lj_text::{Addition, Step};
use std::alloc::Global;

/// The words of the entry at a place, and what stands behind them.
pub(super) fn encoding_at<'a>(starts: &[u64], encoding: &'a [u32], place: u64) -> Option<&'a [u32]>
    ensures { option_copied result
        ≡ option_map (λ start. drop start encoding.now) (slice_get starts.now place) }
{
    let start = *starts.get(place as usize)?;
    Some(encoding_from(encoding, start))
}

/// The words from a place on.
pub(super) fn encoding_from(encoding: &[u32], start: u64) -> &[u32]
    ensures { result.now ≡ drop start encoding.now }
{
    &encoding[encoding.len().min(start as usize)..]
}

/// The literals that words name by their place and their number, and what stands behind.
pub(super) fn named<'a, 'b>(lits: &'a [Lit], encoding: &'b [u32]) -> (&'a [Lit], &'b [u32])
    ensures lits { result.0.now ≡ lits_in lits.now encoding.now }
    ensures rest { result.1.now ≡ behind_lits encoding.now }
{
    let (at, rest) = number(encoding);
    let (count, rest) = number(rest);
    (some_lits(lits, at, count), rest)
}

/// So many literals from a place on.
fn some_lits(lits: &[Lit], at: u64, count: u64) -> &[Lit]
    ensures { result.now ≡ some_lits lits.now at count }
{
    let behind = &lits[lits.len().min(at as usize)..];
    &behind[..behind.len().min(count as usize)]
}

/// The addition behind its own number.
///
/// # Errors
/// [`NoMemory`] where a growth was refused.
fn addition(alloc: Global, lits: &[Lit], encoding: &[u32]) -> Result<Addition, NoMemory>
    ensures { IfOk result (λ addition. addition ≡ addition_in lits.now encoding.now) }
{
    let (joint, rest) = number(encoding);
    let (literals, rest) = named(lits, rest);
    let (hints, rest) = list(alloc, rest)?;
    Ok(Addition {
        number: joint,
        lemma: Lemma::from_lits(alloc, literals)?,
        hints,
        groups: groups(alloc, rest)?,
    })
}

/// The deletion of the numbers in a list, if there are any.
///
/// # Errors
/// [`NoMemory`] where a growth was refused.
fn deletion(alloc: Global, encoding: &[u32]) -> Result<Option<Step>, NoMemory>
    ensures same { IfOk result (λ step. step ≡ if_some (list_in encoding.now).0) }
    ensures some { OnErr result (if_some (list_in encoding.now).0 ≢ None) }
{
    let (numbers, _) = list(alloc, encoding)?;
    if numbers.is_empty() {
        return Ok(None);
    }
    Ok(Some(Step::Delete { numbers }))
}

/// The step of a kind, behind the first number of its entry.
///
/// # Errors
/// [`NoMemory`] where a growth was refused.
pub(super) fn step(
    alloc: Global,
    lits: &[Lit],
    kind: u64,
    encoding: &[u32],
) -> Result<Option<Step>, NoMemory>
    ensures same { IfOk result (λ step. step ≡ step_in lits.now kind encoding.now) }
    ensures some { OnErr result (step_in lits.now kind encoding.now ≢ None) }
{
    match kind {
        ADDITION | PART => {
            let (_, rest) = number(encoding);
            Ok(Some(Step::Add(addition(alloc, lits, rest)?)))
        }
        DROP => deletion(alloc, behind_list(encoding)),
        ADOPT | IMPORT => Ok(None),
        _ => deletion(alloc, encoding),
    }
}

/// The call of a kind, behind the first number of its entry.
///
/// # Errors
/// [`NoMemory`] where a growth was refused.
fn call(alloc: Global, lits: &[Lit], kind: u64, encoding: &[u32]) -> Result<Call, NoMemory>
    ensures { IfOk result (λ call. call ≡ call_in lits.now kind encoding.now) }
{
    let (own, rest) = number(encoding);
    Ok(match kind {
        ADDITION => {
            let (_, rest) = number(rest);
            let (literals, _) = named(lits, rest);
            Call::Add {
                own,
                lemma: Lemma::from_lits(alloc, literals)?,
            }
        }
        DROP => {
            let (numbers, _) = list(alloc, encoding)?;
            Call::Drop { numbers }
        }
        ADOPT => {
            let (joint, _) = number(rest);
            Call::Adopt { own, joint }
        }
        IMPORT => {
            let (literals, _) = named(lits, rest);
            Call::Import {
                own,
                clause: Clause::from_lits(alloc, literals)?,
            }
        }
        PART => {
            let (_, rest) = number(rest);
            let (literals, _) = named(lits, rest);
            Call::Import {
                own,
                clause: Clause::from_lits(alloc, literals)?,
            }
        }
        _ => Call::Leave,
    })
}

/// The entry whose words these begin with.
///
/// # Errors
/// [`NoMemory`] where a growth was refused.
pub(super) fn entry(alloc: Global, lits: &[Lit], encoding: &[u32]) -> Result<Entry, NoMemory>
    requires { (entry_in lits.now encoding.now).seat < 4294967296 }
    ensures { IfOk result
        (λ entry. entry ≡ entry_in lits.now encoding.now) }
{
    let (head, rest) = number(encoding);
    let kind = head % KINDS;
    Ok(Entry {
        seat: (head / KINDS) as u32,
        call: call(alloc, lits, kind, rest)?,
        step: step(alloc, lits, kind, rest)?,
    })
}

/// The step of the entry whose words these begin with.
///
/// # Errors
/// [`NoMemory`] where a growth was refused, and only where there is a step.
pub(super) fn entry_step(
    alloc: Global,
    lits: &[Lit],
    encoding: &[u32],
) -> Result<Option<Step>, NoMemory>
    ensures same { IfOk result (λ step. step ≡ (entry_in lits.now encoding.now).step) }
    ensures some { OnErr result ((entry_in lits.now encoding.now).step ≢ None) }
{
    let (head, rest) = number(encoding);
    step(alloc, lits, head % KINDS, rest)
}

/// The seat of the entry whose words these begin with.
pub(super) fn seat(encoding: &[u32]) -> u32
    requires { seat_in (number_in encoding.now).0 < 4294967296 }
    ensures { result ≡ seat_in (number_in encoding.now).0 }
{
    let (head, _) = number(encoding);
    (head / KINDS) as u32
}
