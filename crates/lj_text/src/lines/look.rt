//! The next line that says something.
ghost use Rattle.std.specs.Prelude.{◌≡◌, ◌-◌, ◌≤◌, ℕ, length, take, drop, IfErr, IfOk, IsOk, OnErr, MatchResult, MatchBool, IsSome, Ok, true, false};
ghost use Rattle.lj_text.specs.Bytes.{tokens_of, line_number, is_silent};
ghost use Rattle.lj_text.specs.Lines.{line_of};
ghost use Rattle.lj_text.specs.inner.LineReading.{IsLineTold, line_said};
ghost use Rattle.lj_text.specs.LinesRead.{is_line_no_memory, HasNoLineEnd};
ghost use Rattle.lj_text.specs.inner.Looking.{Looked, LookedBehind, Fails, FailsToEnd};
ghost use Rattle.lj_clause.specs.declared.lit.TheConstants.{MAX_VARIABLE};

use super::buffer::InputBuffer;
use super::fault::LineFault;
use super::parse::parse;
use super::scratch::Scratch;
use crate::line::Line;

/// What a look at the whole lines ahead found.
#[derive(Drop)]
pub(super) struct Found {
    /// The first line that says something; none where no whole line does.
    pub line: Option<Line>,
    /// Its number, or that of the line being read.
    pub at: u64,
    /// The number of the line that follows.
    pub number: u64,
    /// How many bytes follow.
    pub left: u128,
    /// How many of those are known to hold no line feed.
    pub searched: usize,
}

/// What the bytes of the line with this number say.
fn parse_at(
    scratch: &mut Scratch,
    max: u32,
    ended: bool,
    bytes: &[u8],
    number: u64,
) -> Result<Option<Line>, LineFault>
    requires { max ≤ MAX_VARIABLE }
    ensures says { MatchResult result (λ line. line_said max ended (tokens_of bytes.now) ≡ Ok line)
        (λ fault. (fault.line ≡ number)
        × IsLineTold fault.kind (line_said max ended (tokens_of bytes.now))) }
    ensures speaks { OnErr result (is_silent (tokens_of bytes.now) ≡ false) }
    ensures right { IfErr result (λ fault. is_line_no_memory fault.kind ≡ true
        → IsOk (line_of max ended (tokens_of bytes.now))) }
{
    match parse(scratch, max, ended, bytes) {
        Ok(line) => Ok(line),
        Err(kind) => Err(LineFault { kind, line: number }),
    }
}

/// Looks for the first whole line that says something. There is no line feed among the first `searched` bytes. Takes time
/// linear in the bytes of the lines that it passes and in those that it searches, and O(n log n) time for literals that
/// stand in no order.
#[cold]
pub(super) fn look(
    scratch: &mut Scratch,
    max: u32,
    first: u64,
    ahead: &InputBuffer,
    searched: usize,
) -> Result<Found, LineFault>
    requires max { max ≤ MAX_VARIABLE }
    requires within { searched ≤ length ahead.now }
    requires none_before { HasNoLineEnd (take searched ahead.now) }
    ensures left { IfOk result (λ found. found.left ≤ length ahead.now) }
    ensures open { IfOk result (λ found. found.line ≡ None
        → HasNoLineEnd (drop (length ahead.now - found.left) ahead.now)) }
    ensures searched { IfOk result (λ found. found.line ≡ None → found.searched ≡ found.left) }
    ensures found { (k : ℕ) → first ≡ line_number k → MatchResult result
        (λ found. Looked max k ahead.now found) (λ fault. Fails max k ahead.now fault) }
{
    let mut rest = ahead.ahead();
    let mut none_before = searched;
    let mut number = first;
    while let Some((bytes, after)) = rest.first_line(none_before) {
        let next = number.saturating_add(1);
        match parse_at(scratch, max, true, bytes, number)? {
            None => {}
            Some(line) => {
                return Ok(Found {
                    line: Some(line),
                    at: number,
                    number: next,
                    left: after.count(),
                    searched: 0,
                });
            }
        }
        rest = after;
        none_before = 0;
        number = next;
    }
    Ok(Found {
        line: None,
        at: number,
        number,
        left: rest.count(),
        searched: rest.open_count(),
    })
}

/// The same, and where no whole line says anything, what the last one says, which the input ends; and whether it
/// came to that.
pub(super) fn look_to_end(
    scratch: &mut Scratch,
    max: u32,
    first: u64,
    ahead: &InputBuffer,
    searched: usize,
) -> Result<(Found, bool), LineFault>
    requires max { max ≤ MAX_VARIABLE }
    requires within { searched ≤ length ahead.now }
    requires none_before { HasNoLineEnd (take searched ahead.now) }
    ensures { (k : ℕ) → first ≡ line_number k
        → MatchResult result (λ found. MatchBool found.1 (LookedBehind max k ahead.now found.0)
        (Looked max k ahead.now found.0 × IsSome found.0.line))
        (λ fault. FailsToEnd max k ahead.now fault) }
{
    let found = look(scratch, max, first, ahead, searched)?;
    if found.line.is_some() {
        return Ok((found, false));
    }
    let last = ahead.last(found.searched);
    let line = parse_at(scratch, max, false, last, found.number)?;
    let behind = Found {
        line,
        at: found.number,
        number: found.number,
        left: 0,
        searched: 0,
    };
    Ok((behind, true))
}
