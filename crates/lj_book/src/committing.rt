//! What an addition that enters changes.
ghost use Rattle.std.specs.Prelude.{◌≡◌, ◌++◌, ◌∷◌, [], OnOk, OnErr, IfOk, true, false};
ghost use Rattle.std.specs.FinMap as fin;
ghost use Rattle.lj_hint.specs.Hints.{numbers};
ghost use Rattle.lj_book.specs.Tables.{is_here, is_bound, has_holder, with_table};
ghost use Rattle.lj_book.specs.inner.Records.{entering_entry};
ghost use Rattle.lj_book.specs.inner.Kept.{refuted_after};

use crate::clause_log::ClauseLog;
use crate::lent_addition::LentAddition;
use crate::seat_tables::SeatTables;
use lj_clause::{ClauseView, NoMemory};
use lj_hint::Pair;
use lj_text::Numbers;
use std::alloc::Global;

/// The numbers of these pairs.
pub(crate) fn numbers_of(alloc: Global, pairs: &[Pair]) -> Result<Numbers, NoMemory>
    ensures { IfOk result (λ list. list ≡ numbers pairs.now) }
{
    let mut list = Numbers::with_capacity(alloc, pairs.len())?;
    for pair in pairs {
        list.push(pair.joint)?;
    }
    Ok(list)
}

/// Enters a seat's addition, or an import that adds its clause, under the new number of its step, and binds the seat's own
/// number to it: both, or neither.
///
/// # Errors
/// [`NoMemory`] where a growth was refused.
pub(crate) fn enter_step(
    clause_log: &mut ClauseLog,
    tables: &mut SeatTables,
    seat: u32,
    own: u64,
    step: &LentAddition<'_>,
    is_import: bool,
) -> Result<(), NoMemory>
    requires here { is_here tables.old seat ≡ true }
    requires unbound { is_bound tables.old seat own ≡ false }
    requires no_holder { has_holder tables.old step.now.number ≡ false }
    ensures entries { OnOk result (clause_log.new.history.entries ≡ clause_log.old.history.entries
        ++ entering_entry is_import seat own step.now ∷ []) }
    ensures live { OnOk result
        (clause_log.new.live ≡ fin.insert clause_log.old.live step.now.number
        step.now.lemma.clause) }
    ensures tables { OnOk result (tables.new
        ≡ with_table (λ t. fin.insert t own step.now.number) tables.old seat) }
    ensures same { OnErr result (clause_log.new.history.entries ≡ clause_log.old.history.entries) }
    ensures err { OnErr result
        ((clause_log.new.live ≡ clause_log.old.live) × (tables.new ≡ tables.old)) }
{
    tables.bind(seat, own, step.number)?;
    if let Err(e) = clause_log.add(seat, own, step, is_import) {
        let _ = tables.unbind(seat, own);
        return Err(e);
    }
    Ok(())
}

/// The place of the first empty clause, where this clause enters at that place.
pub(crate) fn refuted_at(refuted: Option<u64>, place: u64, clause: &ClauseView<'_>) -> Option<u64>
    ensures { result ≡ refuted_after refuted place clause.now }
{
    match refuted {
        Some(first) => Some(first),
        None => clause.lits().is_empty().then_some(place),
    }
}
