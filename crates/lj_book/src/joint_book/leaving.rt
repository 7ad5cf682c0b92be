//! Seats that leave.
ghost use Rattle.std.specs.Prelude.{◌≡◌, OnOk, OnErr, IfOk, IfErr, Err};
ghost use Rattle.lj_book.specs.History.{after_entry};
ghost use Rattle.lj_book.specs.Calls.{IsReplyBy, leave_reply, leave_entry};

use crate::dying::{rising, without_holder};
use crate::entry::{Call, Entry};
use crate::joint_book::{JointBook, deletion_of};
use crate::refusal::Refusal;
use lj_text::Numbers;

impl JointBook {
    /// Ends the bindings of a seat, which is then gone. The clauses that no seat holds any more die in the same entry. Gives
    /// its place in the history, and a copy of it.
    ///
    /// # Errors
    /// [`Refusal::SeatGone`], and [`Refusal::NoMemory`] where a growth was refused.
    pub fn leave(&mut self, seat: u32) -> Result<(u64, Entry), Refusal>
        ensures reply { IsReplyBy (λ told. told.0) result (leave_reply self.old seat) }
        ensures refused { IfErr (leave_reply self.old seat) (λ e. result ≡ Err e) }
        ensures told { IfOk result (λ told. told.1 ≡ leave_entry self.old seat) }
        ensures ok { OnOk result (self.new ≡ after_entry self.old (leave_entry self.old seat)) }
        ensures err { OnErr result (self.new ≡ self.old) }
    {
        if !self.tables.is_here(seat) {
            return Err(Refusal::SeatGone);
        }
        let alloc = self.clause_log.allocator();
        let numbers = Numbers::new(self.tables.own_numbers(alloc, seat)?);
        let joints = rising(self.tables.joints(alloc, seat, &numbers)?);
        self.clause_log.reserve_deaths(0, joints.len())?;
        let place = self.clause_log.history().len();
        self.tables.leave(seat, &numbers);
        let died = without_holder(&self.tables, joints);
        self.clause_log.push_leave(seat, &died);
        let call = Call::Leave;
        let step = deletion_of(died);
        Ok((place, Entry { seat, call, step }))
    }
}
