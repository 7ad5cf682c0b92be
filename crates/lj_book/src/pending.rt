//! What is pending for the seats between their events.
ghost use Rattle.std.specs.Prelude.{◌≡◌, IfOk, replicate, slice_index_or, slice_set};
ghost use Rattle.lj_book.specs.declared.event.Pending.TheVariants as pendings;
ghost use Rattle.lj_book.specs.Worlds.{IsTestOf, IsTested};

use crate::event::{Pending, Reply};
use lj_clause::NoMemory;
use lj_hint::{Case, Propagator, Tested};
use std::alloc::Global;
use std::mem;

/// Nothing pending for any of so many seats.
pub(crate) fn nothing_pending(alloc: Global, seats: usize) -> Result<Vec<Pending>, NoMemory>
    ensures { IfOk result (λ pending. pending.items ≡ replicate seats pendings.Nothing) }
{
    let mut pending = Vec::new(alloc);
    for _seat in 0..seats {
        pending.push(Pending::Nothing)?;
    }
    Ok(pending)
}

/// Sets what is pending for a seat, if there is such a seat.
pub(crate) fn set_pending(pending: &mut [Pending], seat: u32, value: Pending)
    ensures { pending.new ≡ slice_set pending.old seat value }
{
    let at = seat as usize;
    if at < pending.len() {
        pending[at] = value;
    }
}

/// Takes out what is pending for a seat.
pub(crate) fn take_pending(pending: &mut [Pending], seat: u32) -> Pending
    ensures taken { result ≡ slice_index_or pending.old seat pendings.Nothing }
    ensures left { pending.new ≡ slice_set pending.old seat pendings.Nothing }
{
    let at = seat as usize;
    if at < pending.len() {
        mem::replace(&mut pending[at], Pending::Nothing)
    } else {
        Pending::Nothing
    }
}

/// The reply to the test of what is pending for a seat.
pub(crate) fn answer_test(seat: u32, pending: &mut [Pending], propagator: &mut Propagator) -> Reply
    ensures { IsTestOf (slice_index_or pending.old seat pendings.Nothing) pending.old
        (slice_set pending.old seat) result pending.new }
{
    match take_pending(pending, seat) {
        Pending::Case(case) => {
            let (reply, after) = tested(case, propagator);
            set_pending(pending, seat, after);
            reply
        }
        untested => {
            set_pending(pending, seat, untested);
            Reply::Nothing
        }
    }
}

/// The reply to the test of a case, and what is pending after it.
fn tested(case: Case, propagator: &mut Propagator) -> (Reply, Pending)
    ensures { IsTested case (λ after. after) result.0 result.1 }
{
    match case.test(propagator) {
        Tested::Closed(receipt) => (Reply::Closed, Pending::Receipt(receipt)),
        Tested::Open(_) => (Reply::Open, Pending::Nothing),
        Tested::Stuck(place) => (Reply::Stuck(place), Pending::Nothing),
        Tested::NoMemory(case, e) => (Reply::Refused(e.into()), Pending::Case(case)),
    }
}
