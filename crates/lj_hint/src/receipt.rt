//! Receipts of closed propagations.
use crate::pair::Pair;
use lj_clause::Lemma;
use std::marker::Model;

/// The receipt of a test: a lemma, and the hints that close the propagation of its negation, all of them read.
///
/// Only [`Case::test`](crate::Case::test) makes one, and it can't be copied.
#[derive(Debug, Drop)]
pub struct Receipt {
    seat: u32,
    own: u64,
    lemma: Lemma,
    /// The part of the case's hints that the propagation read.
    listed: Vec<Pair>,
}

impl Model for Receipt {
    ghost use Rattle.lj_hint.specs.Receipt.{ReceiptValue, receipt_with, IsReceipt};
    ghost use Rattle.lj_hint.specs.inner.Codes.{receipt_code};

    ghost Value = { ReceiptValue };

    ghost coded = { receipt_code };

    ghost view = { λ r. receipt_with r.seat r.own r.lemma r.listed.items };

    ghost invariant = { λ r. IsReceipt (receipt_with r.seat r.own r.lemma r.listed.items) };
}

impl Receipt {
    ghost use Rattle.std.specs.Prelude.{◌≡◌};
    ghost use Rattle.lj_hint.specs.Receipt.{receipt_with, IsReceipt};

    /// The receipt of a propagation that closed at the last of these hints.
    pub(crate) fn new(seat: u32, own: u64, lemma: Lemma, listed: Vec<Pair>) -> Receipt
        requires { IsReceipt (receipt_with seat own lemma listed.items) }
        ensures { result ≡ receipt_with seat own lemma listed.items }
    {
        Receipt {
            seat,
            own,
            lemma,
            listed,
        }
    }

    /// The seat whose addition it is. Takes constant time.
    pub fn seat(&self) -> u32
        ensures { result ≡ self.now.seat }
    {
        self.seat
    }

    /// The own number of the addition. Takes constant time.
    pub fn own(&self) -> u64
        ensures { result ≡ self.now.own }
    {
        self.own
    }

    /// The lemma of the addition. Takes constant time.
    pub fn lemma(&self) -> &Lemma
        ensures lemma { result.now ≡ self.now.lemma }
        ensures receipt { IsReceipt self.now }
    {
        &self.lemma
    }

    /// The hints that the propagation read, in their order: none where it closed before the first. Takes constant time.
    pub fn listed(&self) -> &[Pair]
        ensures listed { result.now ≡ self.now.listed }
        ensures receipt { IsReceipt self.now }
    {
        &self.listed
    }
}
