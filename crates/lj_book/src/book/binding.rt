//! Own numbers that are bound to clauses which live already, or by clauses which do, as seats name them.
ghost use Rattle.std.specs.Prelude.{◌≡◌, if◌then◌else◌, Some, None, OnOk, OnErr, IfOk, IfErr, IfSome, Err, true};
ghost use Rattle.std.specs.FinMap as fin;
ghost use Rattle.lj_clause.specs.ClauseMap.{names_up_to};
ghost use Rattle.lj_clause.specs.Renaming.{is_named, image};
ghost use Rattle.lj_book.specs.State.{live};
ghost use Rattle.lj_book.specs.Calls.{IsReply, IsReplyBy, adopt_entry};
ghost use Rattle.lj_book.specs.Named.{top_of, names_of, beneath, after_named};
ghost use Rattle.lj_book.specs.inner.Over.{is_private};
ghost use Rattle.lj_book.specs.NamedReplies.{named_adopt, import_refusal, named_import};
ghost use Rattle.lj_book.specs.NamedEntries.{named_import_entry};
ghost use Rattle.lj_book.specs.NamedAlone.{clause_for};

use crate::book::Book;
use crate::entry::{Entry, Imported};
use crate::joint_book::laws::history_is_legal;
use crate::refusal::Refusal;
use lj_clause::Clause;

impl Book {
    /// The live clause of a joint number, in the seat's variables. Takes the time of [`Book::clause`], and time linear in its
    /// literals; where it has a variable above the formula's, O(n log n) time for n of them.
    ///
    /// # Errors
    /// [`Refusal::NoSuchClause`] where the joint number doesn't live, [`Refusal::PrivateVariable`] where its clause names a
    /// variable above the formula's that the seat was not given, and [`Refusal::NoMemory`] where a growth was refused.
    pub fn clause_for(&self, seat: u32, joint: u64) -> Result<Clause, Refusal>
        ensures reply { IsReply result (clause_for self.now seat joint) }
        ensures refused { IfErr (clause_for self.now seat joint) (λ e. result ≡ Err e) }
    {
        let Some(clause) = self.joint.clause(joint) else {
            return Err(Refusal::NoSuchClause);
        };
        let alloc = self.joint.allocator();
        match self.variables.own_clause(alloc, seat, &clause)? {
            Some(own) => Ok(own),
            None => Err(Refusal::PrivateVariable),
        }
    }

    /// Binds the seat's own number to a joint number that lives, where its clause names no variable above the formula's but
    /// such as the seat was given. Answers the entry's place in the history. Takes O(log n) time, and time linear in the
    /// clause's literals.
    ///
    /// # Errors
    /// [`Refusal::SeatGone`], [`Refusal::NumberTaken`], [`Refusal::NoSuchClause`] where the joint number doesn't live,
    /// [`Refusal::PrivateVariable`], and [`Refusal::NoMemory`] where a growth was refused.
    pub fn adopt(&mut self, seat: u32, own: u64, joint: u64) -> Result<u64, Refusal>
        ensures reply { IsReply result (named_adopt self.old seat own joint) }
        ensures refused { IfErr (named_adopt self.old seat own joint) (λ e. result ≡ Err e) }
        ensures ok { OnOk result (self.new ≡ after_named self.old (adopt_entry seat own joint)) }
        ensures err { OnErr result (self.new ≡ self.old) }
    {
        if self.is_private(seat, joint) {
            return match self.joint.free_refusal(seat, own) {
                Some(refusal) => Err(refusal),
                None => Err(Refusal::PrivateVariable),
            };
        }
        let adopted = self.joint.adopt(seat, own, joint);
        history_is_legal(&self.joint);
        adopted
    }

    /// Binds the seat's own number to the least live number with exactly this clause, which is in the seat's variables. Where none
    /// lives, but a part of the clause does, the clause enters under the next joint number: its hint is the least such part, or
    /// none where the clause holds a literal and its negation, and its pivot the least literal in joint variables.
    ///
    /// Takes time linear in the clause's literals, and that again for each clause that holds the literal of it which the fewest
    /// hold; those that died since one asked for this literal count too. Where no equal clause lives, takes time linear in the
    /// lists of the clauses that hold each of its literals, O(log n) for each of its n literals there. The first time it takes
    /// O(log n) time for each joint number given so far, and for each literal of the live clauses. Where the clause has a
    /// variable above the formula's, it also takes the time of [`Book::variable`] for each literal, and O(n log n) time for n
    /// of them.
    ///
    /// # Errors
    /// [`Refusal::SeatGone`], [`Refusal::NumberTaken`], [`Refusal::PrivateVariable`], [`Refusal::NoSuchClause`] where no part
    /// of the clause lives, [`Refusal::Full`], and [`Refusal::NoMemory`] where a growth was refused.
    pub fn import(&mut self, seat: u32, own: u64, clause: &Clause) -> Result<Imported, Refusal>
        ensures reply { IsReply result (named_import self.old seat own clause.now) }
        ensures refused { IfSome (import_refusal self.old seat own clause.now)
            (λ e. result ≡ Err e) }
        ensures within { names_up_to (top_of self.old) clause.now ≡ true
            → IfErr (named_import self.old seat own clause.now) (λ e. result ≡ Err e) }
        ensures ok { OnOk result (self.new
            ≡ after_named self.old (named_import_entry self.old seat own clause.now)) }
        ensures err { OnErr result (self.new ≡ self.old) }
    {
        match self.import_with_entry(seat, own, clause, false) {
            Ok((imported, _entry)) => Ok(imported),
            Err(refusal) => Err(refusal),
        }
    }

    /// As [`Book::import`], with a copy of the entry where it is wanted, which takes time linear in the entry.
    ///
    /// # Errors
    /// As [`Book::import`].
    pub fn import_with_entry(
        &mut self,
        seat: u32,
        own: u64,
        clause: &Clause,
        wanted: bool,
    ) -> Result<(Imported, Option<Entry>), Refusal>
        ensures reply { IsReplyBy (λ told. told.0) result
            (named_import self.old seat own clause.now) }
        ensures refused { IfSome (import_refusal self.old seat own clause.now)
            (λ e. result ≡ Err e) }
        ensures within { names_up_to (top_of self.old) clause.now ≡ true
            → IfErr (named_import self.old seat own clause.now) (λ e. result ≡ Err e) }
        ensures told { IfOk result (λ told. told.1
            ≡ (if wanted then Some (named_import_entry self.old seat own clause.now) else None)) }
        ensures ok { OnOk result (self.new
            ≡ after_named self.old (named_import_entry self.old seat own clause.now)) }
        ensures err { OnErr result (self.new ≡ self.old) }
    {
        if self.variables.is_within(clause) {
            return self.import_joint(seat, own, clause, clause, wanted);
        }
        if let Some(refusal) = self.import_refusal(seat, own, clause) {
            return Err(refusal);
        }
        let alloc = self.joint.allocator();
        let renamed = clause.renamed(alloc, &self.variables.to_joint(seat))?;
        self.import_joint(seat, own, clause, &renamed, wanted)
    }

    /// As [`Book::import_with_entry`], by the clause in joint variables too.
    ///
    /// # Errors
    /// As [`Book::import`].
    fn import_joint(
        &mut self,
        seat: u32,
        own: u64,
        clause: &Clause,
        joint: &Clause,
        wanted: bool,
    ) -> Result<(Imported, Option<Entry>), Refusal>
        requires named { is_named (top_of self.old) (names_of self.old seat) clause.now ≡ true }
        requires joint { image (names_of self.old seat) clause.now ≡ joint.now }
        ensures reply { IsReplyBy (λ told. told.0) result
            (named_import self.old seat own clause.now) }
        ensures refused { IfErr (named_import self.old seat own clause.now)
            (λ e. result ≡ Err e) }
        ensures told { IfOk result (λ told. told.1
            ≡ (if wanted then Some (named_import_entry self.old seat own clause.now) else None)) }
        ensures ok { OnOk result (self.new
            ≡ after_named self.old (named_import_entry self.old seat own clause.now)) }
        ensures err { OnErr result (self.new ≡ self.old) }
    {
        let told = self.joint.import(seat, own, joint, wanted, clause);
        history_is_legal(&self.joint);
        told
    }

    /// Whether a clause lives under the joint number that names a variable above the formula's which the seat was not given.
    fn is_private(&self, seat: u32, joint: u64) -> bool
        ensures { result ≡ is_private self.now seat (fin.get (live (beneath self.now)) joint) }
    {
        match self.joint.clause(joint) {
            Some(clause) => !self.variables.is_own(seat, &clause),
            None => false,
        }
    }

    /// The first refusal of an import that holds before its clause is sought.
    fn import_refusal(&self, seat: u32, own: u64, clause: &Clause) -> Option<Refusal>
        ensures { result ≡ import_refusal self.now seat own clause.now }
    {
        if let Some(refusal) = self.joint.free_refusal(seat, own) {
            return Some(refusal);
        }
        if !self.variables.is_named(seat, clause) {
            return Some(Refusal::PrivateVariable);
        }
        None
    }
}
