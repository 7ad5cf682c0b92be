//! Additions of seats that name their variables, in joint variables.
ghost use Rattle.std.specs.Prelude.{◌≡◌, ◌++◌, ◌∷◌, [], ◌&&◌, not, neg_ℤ, if◌then◌else◌, Some, None, OnOk, OnErr, IfOk, IfErr};
ghost use Rattle.lj_clause.specs.LiteralSet.{literals, holds};
ghost use Rattle.lj_book.specs.Variables.{renaming_of};
ghost use Rattle.lj_book.specs.History.{after_entry};
ghost use Rattle.lj_book.specs.Calls.{IsRefusal, IsReplyBy};
ghost use Rattle.lj_book.specs.Inside.{inside_reply, inside_entry};
ghost use Rattle.lj_book.specs.Solo.{view_of};
ghost use Rattle.lj_book.specs.Views.{IsClosedAlone};
ghost use Rattle.lj_book.specs.inner.Views.{IsFullOrNoMemory};
ghost use Rattle.lj_book.specs.declared.entry.Call.TheVariants as calls;
ghost use Rattle.lj_book.specs.inner.JointForms.{joint_form, with_call};
ghost use Rattle.lj_book.specs.inner.Limits.{is_known, known_images, led_by, known_addition, closes_at_once, is_new, is_lifted, limit_reply};

use crate::entry::{Added, Entry};
use crate::joint_book::JointBook;
use crate::lent_addition::LentAddition;
use crate::refusal::Refusal;
use crate::variable_table::VariableTable;
use lj_clause::{Clause, Lemma, Lit, NoMemory};
use lj_hint::Propagator;
use lj_text::{Addition, Boxed, Groups, Numbers};
use std::alloc::Global;

/// Adds a seat's addition in joint variables, as [`JointBook::add_inside`]. Each of its variables has a joint one. It is copied only
/// where one of them is renamed. Where the entry is wanted, gives a copy, whose call is the seat's own.
///
/// # Errors
/// As [`JointBook::add_inside`].
pub(crate) fn add_joint_form(
    joint: &mut JointBook,
    variables: &VariableTable,
    seat: u32,
    addition: &Addition,
    propagator: &mut Propagator,
    wanted: bool,
) -> Result<(Added, Option<Boxed<Entry>>), Refusal>
    ensures reply { IsReplyBy (λ told. told.0) result (inside_reply joint.old seat
        (joint_form variables.now.variables seat addition.now)) }
    ensures told { IfOk result (λ told. told.1 ≡ (if wanted
        then Some (with_call (calls.Add addition.now.number addition.now.lemma)
        (inside_entry joint.old seat (joint_form variables.now.variables seat addition.now)))
        else None)) }
    ensures ok { OnOk result (joint.new ≡ after_entry joint.old
        (inside_entry joint.old seat (joint_form variables.now.variables seat addition.now))) }
    ensures err { OnErr result (joint.new ≡ joint.old) }
{
    let named = &addition.lemma;
    if variables.is_unmoved(seat, named.clause()) {
        return joint.add_inside(seat, addition, propagator, wanted, named);
    }
    match joint_form(joint.allocator(), variables, seat, addition) {
        Ok(renamed) => joint.add_inside(seat, &renamed, propagator, wanted, named),
        Err(refused) => Err(Refusal::NoMemory(refused)),
    }
}

/// As [`add_joint_form`], of an addition that is known to close after so many of its hints, as [`JointBook::add_closed`].
///
/// # Errors
/// As [`JointBook::add_closed`].
pub(crate) fn close_joint_form(
    joint: &mut JointBook,
    variables: &VariableTable,
    seat: u32,
    addition: &Addition,
    read: usize,
    wanted: bool,
) -> Result<(Added, Option<Boxed<Entry>>), Refusal>
    requires { IsClosedAlone (view_of joint.old seat) seat
        (joint_form variables.now.variables seat addition.now) read }
    ensures reply { IsReplyBy (λ told. told.0) result (inside_reply joint.old seat
        (joint_form variables.now.variables seat addition.now)) }
    ensures refusal { IfErr result IsFullOrNoMemory }
    ensures told { IfOk result (λ told. told.1 ≡ (if wanted
        then Some (with_call (calls.Add addition.now.number addition.now.lemma)
        (inside_entry joint.old seat (joint_form variables.now.variables seat addition.now)))
        else None)) }
    ensures ok { OnOk result (joint.new ≡ after_entry joint.old
        (inside_entry joint.old seat (joint_form variables.now.variables seat addition.now))) }
    ensures err { OnErr result (joint.new ≡ joint.old) }
{
    let named = &addition.lemma;
    if variables.is_unmoved(seat, named.clause()) {
        return joint.add_closed(seat, addition, read, wanted, named);
    }
    match joint_form(joint.allocator(), variables, seat, addition) {
        Ok(renamed) => joint.add_closed(seat, &renamed, read, wanted, named),
        Err(refused) => Err(Refusal::NoMemory(refused)),
    }
}

/// A copy of a seat's addition with its lemma in the joint variables that the seat was given.
///
/// # Errors
/// [`NoMemory`] where a growth was refused.
pub(crate) fn joint_form(
    alloc: Global,
    variables: &VariableTable,
    seat: u32,
    addition: &Addition,
) -> Result<Addition, NoMemory>
    ensures { IfOk result
        (λ joint. joint ≡ joint_form variables.now.variables seat addition.now) }
{
    let lemma = addition.lemma.renamed(alloc, &variables.to_joint(seat))?;
    with_lemma(&lemma, addition)
}

/// A copy of the addition with this lemma in place of its own.
///
/// # Errors
/// [`NoMemory`] where a growth was refused.
fn with_lemma(lemma: &Lemma, addition: &Addition) -> Result<Addition, NoMemory>
    ensures { IfOk result (λ clone. clone ≡ record addition.now { lemma = lemma.now }) }
{
    LentAddition::new(addition.number, lemma, &addition.hints, &addition.groups).try_clone()
}

/// The refusal of a seat's addition that needs more joint variables than are left: the first of the others that holds, or
/// [`Refusal::NoVariableLeft`]. Tests the literals that have joint variables: no live clause has a variable that isn't given
/// out, so the others change nothing but where two of them contradict each other.
pub(crate) fn refusal_at_limit(
    joint: &mut JointBook,
    variables: &VariableTable,
    seat: u32,
    addition: &Addition,
    propagator: &mut Propagator,
) -> Refusal
    ensures reply { IsRefusal result
        (limit_reply joint.old variables.now seat addition.now) }
    ensures same { joint.new ≡ joint.old }
{
    match known_addition(joint.allocator(), variables, seat, addition) {
        Ok(known) => refusal_of_known(joint, variables, seat, addition, &known, propagator),
        Err(refused) => Refusal::NoMemory(refused),
    }
}

/// The same, by the addition of the literals that have joint variables.
fn refusal_of_known(
    joint: &mut JointBook,
    variables: &VariableTable,
    seat: u32,
    addition: &Addition,
    known: &Addition,
    propagator: &mut Propagator,
) -> Refusal
    requires { known.now ≡ known_addition variables.now seat addition.now }
    ensures reply { IsRefusal result
        (limit_reply joint.old variables.now seat addition.now) }
    ensures same { joint.new ≡ joint.old }
{
    let alloc = joint.allocator();
    let closes = closes_at_once(variables, seat, addition.lemma.clause());
    let new = is_new(variables, seat, addition.lemma.pivot());
    let mut hints = Numbers::new(Vec::new(alloc));
    let mut groups = Groups::new(alloc);
    match joint.inside_line(seat, known, &mut hints, &mut groups, propagator) {
        Ok(()) => Refusal::NoVariableLeft,
        Err(refusal) => {
            if !is_lifted(closes, new, refusal) {
                return refusal;
            }
            if joint.is_full() {
                return Refusal::Full;
            }
            Refusal::NoVariableLeft
        }
    }
}

/// The addition of those literals that have joint variables, in these. Its pivot is the lemma's, where that has one.
///
/// # Errors
/// [`NoMemory`] where a growth was refused.
fn known_addition(
    alloc: Global,
    variables: &VariableTable,
    seat: u32,
    addition: &Addition,
) -> Result<Addition, NoMemory>
    ensures { IfOk result (λ known. known ≡ known_addition variables.now seat addition.now) }
{
    let lits = known_lits(alloc, variables, seat, &addition.lemma)?;
    let lemma = Lemma::from_lits(alloc, &lits)?;
    with_lemma(&lemma, addition)
}

/// Those literals in joint variables, the pivot first, where it has one.
///
/// # Errors
/// [`NoMemory`] where a growth was refused.
fn known_lits(
    alloc: Global,
    variables: &VariableTable,
    seat: u32,
    lemma: &Lemma,
) -> Result<Vec<Lit>, NoMemory>
    ensures { IfOk result (λ lits. lits.items
        ≡ known_images variables.now.top (renaming_of variables.now.variables seat)
        (led_by lemma.now.pivot (literals lemma.now.clause))) }
{
    let mut lits = known_pivot(alloc, variables, seat, lemma.pivot())?;
    for lit in lemma.clause().lits() {
        push_known(&mut lits, variables, seat, *lit)?;
    }
    Ok(lits)
}

/// The pivot in joint variables, where it has one.
///
/// # Errors
/// [`NoMemory`] where a growth was refused.
fn known_pivot(
    alloc: Global,
    variables: &VariableTable,
    seat: u32,
    pivot: Option<Lit>,
) -> Result<Vec<Lit>, NoMemory>
    ensures { IfOk result (λ lits. lits.items ≡ known_images variables.now.top
        (renaming_of variables.now.variables seat) (led_by pivot [])) }
{
    let mut lits = Vec::new(alloc);
    match pivot {
        Some(pivot) => {
            push_known(&mut lits, variables, seat, pivot)?;
            Ok(lits)
        }
        None => Ok(lits),
    }
}

/// Takes the literal in joint variables behind the others, where it has a joint variable.
///
/// # Errors
/// [`NoMemory`] where a growth was refused.
fn push_known(
    lits: &mut Vec<Lit>,
    variables: &VariableTable,
    seat: u32,
    lit: Lit,
) -> Result<(), NoMemory>
    ensures { OnOk result (lits.new.items ≡ lits.old.items
        ++ known_images variables.now.top (renaming_of variables.now.variables seat) (lit ∷ [])) }
{
    if variables.has_name(seat, lit.variable()) {
        lits.push(lit.renamed(&variables.to_joint(seat)))?;
    }
    Ok(())
}

/// Whether the clause has both signs of a variable that has no joint one.
fn closes_at_once(variables: &VariableTable, seat: u32, clause: &Clause) -> bool
    ensures { result ≡ closes_at_once variables.now.top
        (renaming_of variables.now.variables seat) clause.now }
{
    for lit in clause.lits() {
        if closes_with(variables, seat, clause, *lit) {
            return true;
        }
    }
    false
}

/// Whether the literal has no joint form, and the clause has its other sign.
fn closes_with(variables: &VariableTable, seat: u32, clause: &Clause, lit: Lit) -> bool
    ensures { result ≡ (not (is_known variables.now.top
        (renaming_of variables.now.variables seat) lit) && holds clause.now (neg_ℤ lit)) }
{
    !variables.has_name(seat, lit.variable()) && clause.holds(lit.negated())
}

/// Whether the pivot has a variable that has no joint one.
fn is_new(variables: &VariableTable, seat: u32, pivot: Option<Lit>) -> bool
    ensures { result ≡ is_new variables.now.top
        (renaming_of variables.now.variables seat) pivot }
{
    match pivot {
        Some(pivot) => !variables.has_name(seat, pivot.variable()),
        None => false,
    }
}

/// Whether a refusal of the known literals isn't one of the whole lemma, whose propagation closes at once, or whose pivot is new.
fn is_lifted(closes: bool, new: bool, refusal: Refusal) -> bool
    ensures { result ≡ is_lifted closes new refusal }
{
    match refusal {
        Refusal::HintNotUnit(_) => closes,
        Refusal::EmptyOpen
        | Refusal::MissingGroup(_)
        | Refusal::GroupStuck(_, _)
        | Refusal::GroupOpen(_) => closes || new,
        _ => false,
    }
}
