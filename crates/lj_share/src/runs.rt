//! Runs of lines: additions that close by what their seat sees, and deletions, in any order. A run is begun without the lock and
//! entered in one hold of it; then each line is finished or taken back.
ghost use Rattle.std.specs.Prelude.{◌≡◌, ◌≤◌, ◌<◌, IfOk, IsSome, OnErr, OnOk, [], drop, false, is_some, length, take};
ghost use Rattle.lj_clause.specs.ClauseMap.{FormulaValue};
ghost use Rattle.lj_text.specs.declared.line.Line.TheVariants as lines;
ghost use Rattle.lj_book.specs.Solo.{View};
ghost use Rattle.lj_share.specs.inner.Seats.{IsLineBegun, IsKeptAs, IsOwnOf, clauses_seen, pairs_kept, pairs_seen};
ghost use Rattle.lj_share.specs.inner.Ahead.{AreKept, AreTested, IsClosedBy, IsTestedLine, clauses_behind};
ghost use Rattle.lj_share.specs.inner.Dead.{AreDead, AreDeadBehind, AreDeleted, AreNone, is_deleted};
ghost use Rattle.lj_share.specs.inner.Runs.{AreBegun, IsAheadOf, IsBehind, views_behind};

use crate::account::Account;
use crate::book_id::BookId;
use crate::dead::{Dead, Room};
use crate::kept::{bind_ahead, finish, take_back};
use crate::numbered::Numbered;
use crate::own_clauses::OwnClauses;
use crate::seat::{SeenClauses, Unlocked};
use lj_clause::Formula;
use lj_hint::Propagator;
use lj_text::{Addition, Line};

/// Why a run ends before a line.
#[derive(Clone, Copy)]
enum End {
    /// The line is an addition, and what the seat sees behind the run leaves its first list open.
    Open,
    /// Any other reason.
    Other,
}

/// Begins the run that these lines start with; gives how many lines are in it, and whether the line behind it is an addition that
/// what the seat sees there leaves open. How many hints each addition reads is put into the list.
pub(crate) fn begin_run<L: BookId>(
    account: &Account<L>,
    kept: &mut Option<OwnClauses>,
    formula: &Formula,
    scratch: &mut Room,
    lines: &[Numbered],
    reads: &mut [usize],
) -> (usize, bool)
    requires formula { formula.now ≡ L.formula }
    requires own { IsOwnOf L.formula kept.old account.now.view }
    ensures tested { AreTested (clauses_seen account.now.view) lines.now reads.new result.0 }
    ensures begun { AreBegun (pairs_seen account.now.view) (take result.0 lines.now)
        (pairs_kept L.formula kept.new) }
    ensures there { is_some kept.new ≡ is_some account.now.view }
    ensures here { 0 < result.0 → IsSome kept.new }
    ensures lines { result.0 ≤ length lines.now }
    ensures reads { length reads.new ≡ length reads.old }
    ensures within { result.0 ≤ length reads.new }
{
    if kept.is_none() {
        return (0, false);
    }
    let Room { propagator, dead } = scratch;
    let (count, open) = begin_lines(account, kept, formula, propagator, dead, lines, reads);
    dead.clear(&lines[..count]);
    (count, open)
}

/// Begins the lines of the run that these lines start with; gives what [`begin_run`] does. No number is dead before.
fn begin_lines<L: BookId>(
    account: &Account<L>,
    kept: &mut Option<OwnClauses>,
    formula: &Formula,
    propagator: &mut Propagator,
    dead: &mut Dead,
    lines: &[Numbered],
    reads: &mut [usize],
) -> (usize, bool)
    requires formula { formula.now ≡ L.formula }
    requires own { IsOwnOf L.formula kept.old account.now.view }
    requires here { IsSome kept.old }
    requires none { AreNone dead.old }
    ensures tested { AreTested (clauses_seen account.now.view) lines.now reads.new result.0 }
    ensures begun { AreBegun (pairs_seen account.now.view) (take result.0 lines.now)
        (pairs_kept L.formula kept.new) }
    ensures named { AreDeleted (take result.0 lines.now) dead.new }
    ensures there { is_some kept.new ≡ is_some account.now.view }
    ensures here { IsSome kept.new }
    ensures lines { result.0 ≤ length lines.now }
    ensures reads { length reads.new ≡ length reads.old }
    ensures within { result.0 ≤ length reads.new }
{
    let end = lines.len().min(reads.len());
    for k in 0..end {
        match begin_next(
            account,
            kept,
            formula,
            propagator,
            dead,
            &lines[..k],
            &lines[k].line,
        ) {
            Ok(read) => reads[k] = read,
            Err(End::Open) => return (k, true),
            Err(End::Other) => return (k, false),
        }
    }
    (end, false)
}

/// Begins the line that comes next, if it is in the run; gives how many hints it reads.
fn begin_next<L: BookId>(
    account: &Account<L>,
    kept: &mut Option<OwnClauses>,
    formula: &Formula,
    propagator: &mut Propagator,
    dead: &mut Dead,
    ahead: &[Numbered],
    line: &Line,
) -> Result<usize, End>
    requires formula { formula.now ≡ L.formula }
    requires here { IsSome kept.old }
    requires dead { AreDead ahead.now dead.old }
    requires kept { AreKept L.formula kept.old dead.old account.now.view
        (clauses_behind (clauses_seen account.now.view) ahead.now) }
    ensures tested { IfOk result
        (IsTestedLine (clauses_behind (clauses_seen account.now.view) ahead.now) line.now) }
    ensures behind { OnOk result (IsBehind ahead.now line.now) }
    ensures begun { OnOk result (IsLineBegun L.formula line.now kept.old kept.new) }
    ensures dead { OnOk result (AreDeadBehind line.now dead.old dead.new) }
    ensures named { OnErr result (AreDeleted ahead.now dead.new) }
    ensures none { OnErr result
        (IsKeptAs L.formula kept.old (pairs_kept L.formula kept.old) kept.new) }
{
    match line {
        Line::Add(addition) => {
            begin_addition(account, kept, formula, propagator, dead, ahead, addition)
        }
        Line::Delete(numbers) => match dead.put(numbers) {
            Ok(()) => Ok(0),
            Err(_) => Err(End::Other),
        },
        Line::Import { .. } => Err(End::Other),
    }
}

/// Begins an addition, if no deletion of the run names its number, and what the seat sees behind the lines ahead closes it; gives how
/// many hints it reads.
fn begin_addition<L: BookId>(
    account: &Account<L>,
    kept: &mut Option<OwnClauses>,
    formula: &Formula,
    propagator: &mut Propagator,
    dead: &Dead,
    ahead: &[Numbered],
    addition: &Addition,
) -> Result<usize, End>
    requires formula { formula.now ≡ L.formula }
    requires dead { AreDead ahead.now dead.now }
    requires kept { AreKept L.formula kept.old dead.now account.now.view
        (clauses_behind (clauses_seen account.now.view) ahead.now) }
    ensures tested { IfOk result
        (IsClosedBy (clauses_behind (clauses_seen account.now.view) ahead.now) addition.now) }
    ensures behind { OnOk result (is_deleted ahead.now addition.now.number ≡ false) }
    ensures begun { OnOk result
        (IsLineBegun L.formula (lines.Add addition.now) kept.old kept.new) }
    ensures none { OnErr result
        (IsKeptAs L.formula kept.old (pairs_kept L.formula kept.old) kept.new) }
{
    if dead.has(addition.number) {
        return Err(End::Other);
    }
    let Some(own) = &*kept else {
        return Err(End::Other);
    };
    let seen = SeenClauses {
        account,
        ahead,
        dead,
        own,
        formula,
    };
    let read = closed_after(&seen, addition, propagator)?;
    match bind_ahead(kept, formula, addition.number, addition.lemma.clause()) {
        Ok(()) => Ok(read),
        Err(_) => Err(End::Other),
    }
}

/// How many hints of an addition are read until what the seat sees closes it.
fn closed_after<L: BookId>(
    seen: &SeenClauses<'_, L>,
    addition: &Addition,
    propagator: &mut Propagator,
) -> Result<usize, End>
    ensures { IfOk result (IsClosedBy seen.now addition.now) }
{
    if !addition.groups.is_empty() {
        if seen.stays_open(addition, propagator) {
            return Err(End::Open);
        }
        return Err(End::Other);
    }
    match seen.test(addition, propagator) {
        Ok(Unlocked::Closed(read)) => Ok(read),
        Ok(Unlocked::Open) => Err(End::Open),
        Err(_) => Err(End::Other),
    }
}

/// Finishes the first so many lines of a run, whose joint numbers stand in the list.
pub(crate) fn finish_run(
    kept: &mut Option<OwnClauses>,
    run: &[Numbered],
    joints: &[u64],
    entered: usize,
)
    requires run { entered ≤ length run.now }
    requires joints { entered ≤ length joints.now }
    ensures { (f : FormulaValue) (view : View) → IsAheadOf f view run.now kept.old
        → IsAheadOf f (views_behind view run.now joints.now entered) (drop entered run.now)
        kept.new }
{
    for k in 0..entered {
        finish(kept, &run[k].line, joints[k]);
    }
}

/// Takes the lines of a run back from this place on.
pub(crate) fn take_back_run(kept: &mut Option<OwnClauses>, run: &[Numbered], from: usize)
    requires { from ≤ length run.now }
    ensures { (f : FormulaValue) (view : View) → IsAheadOf f view (drop from run.now) kept.old
        → IsAheadOf f view [] kept.new }
{
    for k in from..run.len() {
        take_back(kept, &run[k].line);
    }
}
