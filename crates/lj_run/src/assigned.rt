//! The literals that are true on the way along hints.
use crate::cut_list::CutList;
use crate::line_text::put_literal;
use lj_book::OwnMap;
use lj_clause::{Lit, NoMemory};
use std::alloc::{AllocError, Global};

/// The literals that are true on the way along hints.
#[derive(Drop)]
pub(crate) struct Assigned {
    alloc: Global,
    lits: OwnMap<()>,
}

impl Assigned {
    /// None.
    pub(crate) fn new(alloc: Global) -> Assigned {
        Assigned {
            alloc,
            lits: OwnMap::new(alloc),
        }
    }

    fn is_false(&self, lit: Lit) -> bool {
        self.lits.contains_key(lit.negated().index() as u64)
    }

    fn put(&mut self, lit: Lit) -> Result<(), NoMemory> {
        self.lits.insert(lit.index() as u64, ())
    }

    /// Makes these literals false, but for one.
    pub(crate) fn deny(&mut self, lits: &[Lit], but: Option<Lit>) -> Result<(), NoMemory> {
        for lit in lits {
            if Some(*lit) != but {
                self.put(lit.negated())?;
            }
        }
        Ok(())
    }

    /// Makes the literal of a clause true that alone isn't false.
    pub(crate) fn follow(&mut self, lits: &[Lit]) -> Result<(), NoMemory> {
        let mut left = None;
        for lit in lits {
            if !self.is_false(*lit) {
                if left.is_some() {
                    return Ok(());
                }
                left = Some(*lit);
            }
        }
        match left {
            Some(lit) => self.put(lit),
            None => Ok(()),
        }
    }

    /// The literals of a clause that aren't false, in words.
    pub(crate) fn left_of(&self, lits: &[Lit]) -> Result<String, AllocError> {
        let mut tokens = CutList::new(self.alloc, " and ");
        for lit in lits {
            if !self.is_false(*lit) {
                put_literal(&mut tokens, *lit)?;
            }
        }
        Ok(tokens.into_text())
    }
}
