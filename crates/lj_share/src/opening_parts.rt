//! What new openings are made of.
ghost use Rattle.std.specs.Prelude.{◌≡◌, IfOk};

use crate::copies::{BookCopy, SeatCopy, new_copies};
use lj_book::Entry;
use lj_clause::NoMemory;
use std::alloc::Global;
use std::marker::Model;
use std::sync::ledger;

/// What a new opening is made of: a ledger with a part for each seat, two copies of each seat, and an empty log.
#[derive(Drop)]
pub struct OpeningParts {
    pub(crate) ledger: ledger::Blank,
    pub(crate) locked_book: Vec<BookCopy>,
    pub(crate) seats: Vec<SeatCopy>,
    pub(crate) log: boxcar::Vec<Entry>,
}

impl Model for OpeningParts {
    ghost use Rattle.std.specs.Prelude.{◌≡◌, length, map};
    ghost use Rattle.lj_share.specs.Seats.{OpeningPartsValue};
    ghost use Rattle.lj_share.specs.inner.Codes.{opening_parts_code};

    ghost Value = { OpeningPartsValue };

    ghost coded = { opening_parts_code };

    ghost view = { λ b. record {
      name = b.ledger.name;
      parts = b.ledger.parts;
      lists = map (λ c. c.name) b.seats.items;
      log = b.log;
    } };

    ghost invariant = { λ b. (map (λ c. c.name) b.locked_book.items
        ≡ map (λ c. c.name) b.seats.items)
        × (length b.seats.items ≡ b.ledger.parts) };
}

impl OpeningParts {
    /// What an opening with so many seats is made of. Takes time linear in their number.
    ///
    /// # Errors
    /// [`NoMemory`] where a growth was refused.
    pub fn new(alloc: Global, seats: u32) -> Result<OpeningParts, NoMemory>
        ensures { IfOk result (λ opening_parts. opening_parts.parts ≡ seats) }
    {
        let mut locked_book = Vec::new(alloc);
        let mut copies = Vec::new(alloc);
        for _seat in 0..seats {
            let (here, there) = new_copies();
            locked_book.push(here)?;
            copies.push(there)?;
        }
        Ok(OpeningParts {
            ledger: ledger::Blank::new(u64::from(seats)),
            locked_book,
            seats: copies,
            log: boxcar::Vec::new(alloc)?,
        })
    }
}
