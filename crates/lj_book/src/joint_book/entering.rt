//! Additions whose entry is known to be legal.
ghost use Rattle.std.specs.Prelude.{◌≡◌, length, OnOk, OnErr, IfOk};
ghost use Rattle.lj_book.specs.History.{after_entry, IsLegal};
ghost use Rattle.lj_book.specs.Calls.{commit_told};
ghost use Rattle.lj_book.specs.inner.Records.{entering_entry};

use crate::committing::{enter_step, refuted_at};
use crate::entry::Added;
use crate::joint_book::JointBook;
use crate::lent_addition::LentAddition;
use lj_clause::NoMemory;

impl JointBook {
    /// How many seats there are, also those that have left.
    pub(crate) fn seats(&self) -> usize
        ensures { result ≡ length self.now.tables }
    {
        self.tables.len()
    }

    /// Enters a seat's addition, or an import that adds its clause, under its own number, with a step that is legal.
    ///
    /// # Errors
    /// [`NoMemory`] where a growth was refused.
    pub(crate) fn enter_legal(
        &mut self,
        seat: u32,
        own: u64,
        step: &LentAddition<'_>,
        is_import: bool,
    ) -> Result<Added, NoMemory>
        requires { IsLegal self.old (entering_entry is_import seat own step.now) }
        ensures told { IfOk result (λ added. added ≡ commit_told self.old) }
        ensures ok { OnOk result
            (self.new ≡ after_entry self.old (entering_entry is_import seat own step.now)) }
        ensures err { OnErr result (self.new ≡ self.old) }
    {
        let joint = step.number;
        let place = self.clause_log.history().len();
        let (clause_log, tables) = (&mut self.clause_log, &mut self.tables);
        enter_step(clause_log, tables, seat, own, step, is_import)?;
        self.refuted = refuted_at(self.refuted, place, &step.clause);
        self.added += 1;
        Ok(Added { place, joint })
    }
}
