//! Calls that also give a copy of the entry that they make.
ghost use Rattle.std.specs.Prelude.{◌≡◌, if◌then◌else◌, Some, None, OnOk, OnErr, IfOk, IfErr, IfSome, Err};
ghost use Rattle.lj_book.specs.Calls.{IsReplyBy, drop_entry, adopt_entry, leave_entry};
ghost use Rattle.lj_book.specs.WithEntry.{without_receipt};
ghost use Rattle.lj_book.specs.Named.{beneath, after_named};
ghost use Rattle.lj_book.specs.NamedReplies.{named_commit_refusal, named_commit, named_drop, named_adopt, named_leave};
ghost use Rattle.lj_book.specs.NamedEntries.{named_commit_entry};

use super::Book;
use crate::entry::{Added, Call, Dropped, Entry};
use crate::joint_book::laws::history_is_legal;
use crate::refusal::Refusal;
use lj_hint::Receipt;
use lj_text::{Boxed, Numbers};

impl Book {
    /// As [`Book::commit`], with a copy of the entry. Takes time linear in the entry beside that.
    ///
    /// # Errors
    /// As [`Book::commit`].
    pub fn commit_with_entry(
        &mut self,
        receipt: Receipt,
    ) -> Result<(Added, Boxed<Entry>), (Refusal, Receipt)>
        ensures reply { IsReplyBy (λ told. told.0) (without_receipt result)
            (named_commit self.old receipt) }
        ensures refused { IfSome (named_commit_refusal self.old receipt)
            (λ e. result ≡ Err (e, receipt)) }
        ensures told { IfOk result (λ told. told.1 ≡ named_commit_entry self.old receipt) }
        ensures ok { OnOk result
            (self.new ≡ after_named self.old (named_commit_entry self.old receipt)) }
        ensures err { OnErr result (self.new ≡ self.old) }
        ensures back { IfErr result (λ e. e.1 ≡ receipt) }
    {
        match self.enter_receipt(&receipt, true) {
            Ok((added, Some(entry))) => Ok((added, entry)),
            Ok((_added, None)) => unreachable!(),
            Err(refusal) => Err((refusal, receipt)),
        }
    }

    /// As [`Book::drop_numbers`], with a copy of the entry where it is wanted, which takes time linear in the entry.
    ///
    /// # Errors
    /// As [`Book::drop_numbers`].
    pub fn drop_with_entry(
        &mut self,
        seat: u32,
        numbers: &Numbers,
        wanted: bool,
    ) -> Result<(Dropped, Option<Entry>), Refusal>
        ensures reply { IsReplyBy (λ told. told.0) result (named_drop self.old seat numbers.now) }
        ensures refused { IfErr (named_drop self.old seat numbers.now) (λ e. result ≡ Err e) }
        ensures told { IfOk result (λ told. told.1
            ≡ (if wanted then Some (drop_entry (beneath self.old) seat numbers.now) else None)) }
        ensures ok { OnOk result (self.new
            ≡ after_named self.old (drop_entry (beneath self.old) seat numbers.now)) }
        ensures err { OnErr result (self.new ≡ self.old) }
    {
        let told = self.joint.drop_numbers(seat, numbers, wanted);
        history_is_legal(&self.joint);
        told
    }

    /// As [`Book::adopt`], with a copy of the entry. Takes time linear in the entry beside that.
    ///
    /// # Errors
    /// As [`Book::adopt`].
    pub fn adopt_with_entry(
        &mut self,
        seat: u32,
        own: u64,
        joint: u64,
    ) -> Result<(u64, Entry), Refusal>
        ensures reply { IsReplyBy (λ told. told.0) result (named_adopt self.old seat own joint) }
        ensures refused { IfErr (named_adopt self.old seat own joint) (λ e. result ≡ Err e) }
        ensures told { IfOk result (λ told. told.1 ≡ adopt_entry seat own joint) }
        ensures ok { OnOk result (self.new ≡ after_named self.old (adopt_entry seat own joint)) }
        ensures err { OnErr result (self.new ≡ self.old) }
    {
        let call = Call::Adopt { own, joint };
        let step = None;
        match self.adopt(seat, own, joint) {
            Ok(place) => Ok((place, Entry { seat, call, step })),
            Err(refusal) => Err(refusal),
        }
    }

    /// As [`Book::leave`], with the entry.
    ///
    /// # Errors
    /// As [`Book::leave`].
    pub fn leave_with_entry(&mut self, seat: u32) -> Result<(u64, Entry), Refusal>
        ensures reply { IsReplyBy (λ told. told.0) result (named_leave self.old seat) }
        ensures refused { IfErr (named_leave self.old seat) (λ e. result ≡ Err e) }
        ensures told { IfOk result (λ told. told.1 ≡ leave_entry (beneath self.old) seat) }
        ensures ok { OnOk result
            (self.new ≡ after_named self.old (leave_entry (beneath self.old) seat)) }
        ensures err { OnErr result (self.new ≡ self.old) }
    {
        let told = self.joint.leave(seat);
        history_is_legal(&self.joint);
        told
    }
}
