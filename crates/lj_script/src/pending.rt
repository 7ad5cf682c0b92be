//! What stands between a seat's calls.
use lj_book::Reply;
use lj_hint::{Case, Propagator, Receipt, Tested};
use std::mem;

/// What stands between a seat's calls.
#[derive(Drop)]
pub enum Pending {
    Nothing,
    /// A case that was taken and isn't tested yet.
    Case(Case),
    /// The receipt of a test that closed.
    Receipt(Receipt),
}

impl Pending {
    /// Takes the receipt out, if there is one.
    pub fn take_receipt(&mut self) -> Option<Receipt> {
        match mem::replace(self, Pending::Nothing) {
            Pending::Receipt(receipt) => Some(receipt),
            other => {
                *self = other;
                None
            }
        }
    }

    /// The reply to the test of the case, if there is one.
    pub fn test(&mut self, propagator: &mut Propagator) -> Reply {
        match mem::replace(self, Pending::Nothing) {
            Pending::Case(case) => {
                let (reply, after) = tested(case, propagator);
                *self = after;
                reply
            }
            other => {
                *self = other;
                Reply::Nothing
            }
        }
    }
}

/// The reply to the test of a case, and what is pending after it.
fn tested(case: Case, propagator: &mut Propagator) -> (Reply, Pending) {
    match case.test(propagator) {
        Tested::Closed(receipt) => (Reply::Closed, Pending::Receipt(receipt)),
        Tested::Open(_) => (Reply::Open, Pending::Nothing),
        Tested::Stuck(place) => (Reply::Stuck(place), Pending::Nothing),
        Tested::NoMemory(case, e) => (Reply::Refused(e.into()), Pending::Case(case)),
    }
}
