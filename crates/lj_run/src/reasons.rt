//! Why lines were refused, in words.
use crate::assigned::Assigned;
use crate::line_text::clause_text;
use lj_book::{Book, Refusal};
use lj_clause::{Clause, NoMemory};
use lj_text::{Addition, Line, LineFaultKind, NumbersIter};
use std::alloc::{AllocError, Global};

/// A seat of a closed book. It did nothing since its line was refused, so its numbers and its variables name what they named then.
#[derive(Drop)]
pub(crate) struct ClosedSeat<'a> {
    pub alloc: Global,
    pub book: &'a Book,
    /// The number of the seat and of its stream.
    pub stream: usize,
    /// The most additions of the book.
    pub max_steps: u32,
}

impl ClosedSeat<'_> {
    /// Why a line of the seat was refused.
    pub(crate) fn reason_of(&self, line: &Line, refusal: Refusal) -> Result<String, NoMemory> {
        match (line, refusal) {
            (Line::Add(addition), Refusal::NumberTaken) => self.number_taken(addition.number),
            (Line::Import { number, .. }, Refusal::NumberTaken) => self.number_taken(*number),
            (Line::Add(addition), Refusal::HintNotUnit(position)) => {
                self.hint_not_unit(addition, position)
            }
            (Line::Add(addition), Refusal::MissingGroup(joint)) => {
                self.missing_group(addition, joint)
            }
            (Line::Add(addition), Refusal::GroupStuck(joint, position)) => {
                self.group_stuck(addition, joint, position)
            }
            (Line::Import { clause, .. }, Refusal::NoSuchClause) => {
                let clause = clause_text(self.alloc, clause.lits())?;
                Ok(format!(in self.alloc; "no live clause is a part of {clause}")?)
            }
            (Line::Import { clause, .. }, Refusal::PrivateVariable) => {
                self.private_variable(clause)
            }
            (_, refusal) => self.plain_reason(refusal),
        }
    }

    /// Why a line was refused, where the rest of it says nothing of that.
    fn plain_reason(&self, refusal: Refusal) -> Result<String, NoMemory> {
        let alloc = self.alloc;
        let told = match refusal {
            Refusal::SeatGone => String::from_str(alloc, "the stream has left the book")?,
            Refusal::UnknownNumber(own) => format!(in alloc; "the stream has no clause {own}")?,
            Refusal::GroupRepeated(own) => {
                let named = self.named(own)?;
                format!(in alloc; "a group names {named}, which an earlier group names")?
            }
            Refusal::EmptyOpen => String::from_str(
                alloc,
                "the hints leave the clause open, and the empty clause has no pivot",
            )?,
            Refusal::GroupOpen(joint) => {
                let candidate = self.candidate(joint)?;
                format!(in alloc; "the group of {candidate} leaves it open")?
            }
            Refusal::Stale(joint) => format!(in alloc; "the clause of joint number {joint} died")?,
            Refusal::PrivateVariable => String::from_str(
                alloc,
                "the clause has a variable above the formula's that no lemma of the stream has",
            )?,
            Refusal::NoVariableLeft => String::from_str(
                alloc,
                "the clause has a new variable above the formula's, and no joint variable is left for it",
            )?,
            Refusal::Full => {
                let most = self.max_steps;
                format!(in alloc; "the run has reached its limit of additions, {most}")?
            }
            Refusal::NoMemory(_) => String::from_str(alloc, "memory was refused")?,
            other => format!(in alloc; "{other}")?,
        };
        Ok(told)
    }

    fn number_taken(&self, own: u64) -> Result<String, NoMemory> {
        let named = self.named(own)?;
        Ok(format!(in self.alloc; "the number is taken by {named}")?)
    }

    /// The clause of an import has a variable above the formula's that no lemma of the stream has.
    fn private_variable(&self, clause: &Clause) -> Result<String, NoMemory> {
        let top = self.book.formula().variables();
        for lit in clause.lits() {
            let variable = lit.variable();
            if variable > top && self.book.variable(self.seat(), variable).is_none() {
                return Ok(format!(in self.alloc;
                    "variable {variable} is above the formula's, and no lemma of the stream has it"
                )?);
            }
        }
        self.plain_reason(Refusal::PrivateVariable)
    }

    /// The number of the seat.
    fn seat(&self) -> u32 {
        u32::try_from(self.stream).unwrap_or(u32::MAX)
    }

    /// The joint number of an own number.
    fn joint(&self, own: u64) -> Option<u64> {
        self.book.joint(self.seat(), own)
    }

    /// The clause of an own number, in the stream's variables.
    fn clause(&self, own: u64) -> Result<Option<Clause>, NoMemory> {
        match self.joint(own) {
            Some(joint) => self.clause_at(joint),
            None => Ok(None),
        }
    }

    /// The live clause of a joint number in the stream's variables, where the stream names all of its variables.
    fn clause_at(&self, joint: u64) -> Result<Option<Clause>, NoMemory> {
        match self.book.clause_for(self.seat(), joint) {
            Ok(clause) => Ok(Some(clause)),
            Err(Refusal::NoMemory(refused)) => Err(refused),
            Err(_) => Ok(None),
        }
    }

    /// An own number and its clause.
    fn named(&self, own: u64) -> Result<String, NoMemory> {
        let alloc = self.alloc;
        match self.clause(own)? {
            Some(clause) => {
                let clause = clause_text(alloc, clause.lits())?;
                Ok(format!(in alloc; "clause {own} {clause}")?)
            }
            None => Ok(format!(in alloc; "clause {own}")?),
        }
    }

    /// A candidate. Another stream may have given it up since.
    fn candidate(&self, joint: u64) -> Result<String, NoMemory> {
        let alloc = self.alloc;
        match self.clause_at(joint)? {
            Some(clause) => {
                let clause = clause_text(alloc, clause.lits())?;
                Ok(format!(in alloc; "the candidate {clause}, joint number {joint},")?)
            }
            None => Ok(self.foreign_candidate(joint)?),
        }
    }

    /// A candidate with variables that the stream doesn't name, or which died.
    fn foreign_candidate(&self, joint: u64) -> Result<String, AllocError> {
        let alloc = self.alloc;
        match self.book.clause(joint) {
            Some(clause) => {
                let clause = clause_text(alloc, clause.lits())?;
                format!(in alloc;
                    "the candidate of joint number {joint}, in joint variables {clause},"
                )
            }
            None => format!(in alloc; "the candidate of joint number {joint}, which died since,"),
        }
    }

    /// The hint at a place of the first list isn't unit.
    fn hint_not_unit(&self, addition: &Addition, position: u64) -> Result<String, NoMemory> {
        let mut assigned = Assigned::new(self.alloc);
        assigned.deny(addition.lemma.clause().lits(), None)?;
        self.stuck_at(&mut assigned, addition.hints.iter(), position)
    }

    /// A candidate needs a group of hints.
    fn missing_group(&self, addition: &Addition, joint: u64) -> Result<String, NoMemory> {
        let alloc = self.alloc;
        let candidate = self.candidate(joint)?;
        let pivot = match addition.lemma.pivot() {
            Some(pivot) => format!(in alloc; " for the pivot {pivot}")?,
            None => String::new(alloc),
        };
        Ok(format!(in alloc;
            "the hints reach no conflict, and {candidate} has no group of hints{pivot}"
        )?)
    }

    /// The hint at a place of the group of a candidate isn't unit.
    fn group_stuck(
        &self,
        addition: &Addition,
        joint: u64,
        position: u64,
    ) -> Result<String, NoMemory> {
        let candidate = self.candidate(joint)?;
        let Some(clause) = self.clause_at(joint)? else {
            return Ok(format!(in self.alloc;
                "in the group of {candidate} hint {position} isn't unit"
            )?);
        };
        let mut assigned = Assigned::new(self.alloc);
        assigned.deny(addition.lemma.clause().lits(), None)?;
        self.follow(&mut assigned, addition.hints.iter())?;
        let opposite = match addition.lemma.pivot() {
            Some(pivot) => Some(pivot.negated()),
            None => None,
        };
        assigned.deny(clause.lits(), opposite)?;
        let hints = self.group_of(addition, joint);
        let stuck = self.stuck_at(&mut assigned, hints, position)?;
        Ok(format!(in self.alloc; "in the group of {candidate} {stuck}")?)
    }

    /// The hints of the first group of a candidate.
    fn group_of<'b>(&self, addition: &'b Addition, joint: u64) -> NumbersIter<'b> {
        for group in addition.groups.iter() {
            if self.joint(group.candidate) == Some(joint) {
                return group.hints;
            }
        }
        NumbersIter::empty()
    }

    /// Makes true what hints make true, one after the other.
    fn follow(&self, assigned: &mut Assigned, hints: NumbersIter<'_>) -> Result<(), NoMemory> {
        for own in hints {
            if let Some(clause) = self.clause(own)? {
                assigned.follow(clause.lits())?;
            }
        }
        Ok(())
    }

    /// The hint at this place, counted from 1, leaves more than one literal.
    fn stuck_at(
        &self,
        assigned: &mut Assigned,
        hints: NumbersIter<'_>,
        position: u64,
    ) -> Result<String, NoMemory> {
        let before = position.saturating_sub(1) as usize;
        self.follow(assigned, hints.first(before))?;
        let alloc = self.alloc;
        let own = hints.get(before).unwrap_or(0);
        let named = self.named(own)?;
        let left = match self.clause(own)? {
            Some(clause) => assigned.left_of(clause.lits())?,
            None => String::new(alloc),
        };
        Ok(format!(in alloc;
            "hint {position} names {named}, of which {left} are left, so it is not unit"
        )?)
    }
}

/// What is wrong with the text of a line.
pub(crate) fn fault_in_words(kind: LineFaultKind) -> &'static str {
    match kind {
        LineFaultKind::BadNumber => "a number must stand where a token is none",
        LineFaultKind::NumberRange => "a number is above the limit of its place",
        LineFaultKind::Syntax => "a token may not stand where it does, or the closing 0 is missing",
        LineFaultKind::Truncated => "the stream ends before the closing 0 of the line",
        LineFaultKind::NoMemory(_) => "memory was refused",
    }
}
