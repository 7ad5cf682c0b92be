//! Lines that are written token by token.
ghost use Rattle.std.specs.Prelude.{◌≡◌, ℕ, [], ◌∷◌, false, true, OnOk, OnErr, codes};
ghost use Rattle.std.specs.Fmt.{decimal};
ghost use Rattle.lj_text.specs.Writing.{spaced_token};
ghost use Rattle.lj_text.specs.TokenWriting.{token_text, token_state, MayBeGiven, WasGiven};
ghost use Rattle.lj_text.specs.inner.Writing.{Wrote, Broke};

use super::buffer::OutputBuffer;
use super::step_tokens::{write_candidate, write_first, write_literal, write_number};
use crate::sink::{Sink, SinkFault};
use lj_clause::Lit;
use std::marker::Model;

/// A token of a line, behind its first number.
#[derive(Clone, Copy, Debug, PartialEq, Eq)]
pub enum LineToken {
    /// A number.
    Number(u64),
    /// A literal.
    Literal(Lit),
    /// The candidate of a group of hints, with its `-`.
    Candidate(u64),
    /// The `d` of a deletion.
    Deletion,
    /// The 0 at the end of the literals, and at that of a line.
    End,
}

/// Writes a space and a token.
fn write_line_token<W: Sink>(
    sink: &mut W,
    buffer: &mut OutputBuffer,
    token: LineToken,
) -> Result<(), SinkFault>
    requires { W.failures sink.old ≡ 0 }

    ensures wrote { OnOk result (Wrote (W.taken sink.old) buffer.old (W.taken sink.new) buffer.new
        (spaced_token (token_text token))) }
    ensures unfailed { OnOk result (W.failures sink.new ≡ 0) }
    ensures broke { OnErr result (Broke (W.taken sink.old) buffer.old (W.taken sink.new)
        (spaced_token (token_text token))) }
    ensures failed { OnErr result (W.failures sink.new ≡ 1) }
    ensures none { OnErr result (buffer.new ≡ []) }
{
    match token {
        LineToken::Number(number) => write_number(sink, buffer, number),
        LineToken::Literal(literal) => write_literal(sink, buffer, literal),
        LineToken::Candidate(number) => write_candidate(sink, buffer, number),
        LineToken::Deletion => buffer.append(sink, b" d"),
        LineToken::End => buffer.append(sink, b" 0"),
    }
}

/// Writes lines token by token, for one sink that each call is handed. It is seen as what the sink hasn't taken yet and
/// whether a write of the sink failed.
///
/// It takes no memory: what the sink hasn't taken yet is held back in a place of fixed size, until that is full or
/// [`TokenWriter::finish`] is called. Then the sink is given many lines at a time. After a failure nothing is written:
/// [`TokenWriter::finish`] tells it. What is held where the writer is dropped is lost.
#[derive(Drop)]
pub struct TokenWriter {
    buffer: OutputBuffer,
    failed: bool,
}

impl Model for TokenWriter {
    ghost use Rattle.lj_text.specs.TokenWriting.{TokensLeft};

    ghost Value = { TokensLeft };

    ghost view = { λ w. record { text = w.buffer; failed = w.failed } };
}

impl TokenWriter {
    /// Nothing is written yet. Takes constant time.
    pub fn new() -> TokenWriter
        ensures { result ≡ record { text = []; failed = false } }
    {
        TokenWriter {
            buffer: OutputBuffer::new(),
            failed: false,
        }
    }

    /// Writes the number that a line begins with. Takes time linear in its digits.
    pub fn begin_line<W: Sink>(&mut self, sink: &mut W, number: u64)
        requires { MayBeGiven (token_state (W.taken sink.old) (W.failures sink.old) self.old) }

        ensures given { WasGiven
            (token_state (W.taken sink.old) (W.failures sink.old) self.old) (decimal number)
            (token_state (W.taken sink.new) (W.failures sink.new) self.new) }
    {
        if self.failed {
            return;
        }
        self.failed = write_first(sink, &mut self.buffer, number).is_err();
    }

    /// Writes a space and a token. Takes time linear in its digits.
    pub fn token<W: Sink>(&mut self, sink: &mut W, token: LineToken)
        requires { MayBeGiven (token_state (W.taken sink.old) (W.failures sink.old) self.old) }

        ensures given { WasGiven
            (token_state (W.taken sink.old) (W.failures sink.old) self.old)
            (spaced_token (token_text token))
            (token_state (W.taken sink.new) (W.failures sink.new) self.new) }
    {
        if self.failed {
            return;
        }
        self.failed = write_line_token(sink, &mut self.buffer, token).is_err();
    }

    /// Writes the line feed at the end of a line.
    /// Takes constant time, but for what the sink takes where its piece is full.
    pub fn end_line<W: Sink>(&mut self, sink: &mut W)
        requires { MayBeGiven (token_state (W.taken sink.old) (W.failures sink.old) self.old) }

        ensures given { WasGiven
            (token_state (W.taken sink.old) (W.failures sink.old) self.old) (codes "\n")
            (token_state (W.taken sink.new) (W.failures sink.new) self.new) }
    {
        if self.failed {
            return;
        }
        self.failed = self.buffer.append(sink, b"\n").is_err();
    }

    /// Gives the sink all that is held back, so that it has taken the whole text. More lines may follow. Takes time linear in
    /// what is held back.
    ///
    /// # Errors
    /// [`SinkFault`] where a write of the sink failed, in this call or an earlier one: it has taken a beginning of the
    /// text.
    pub fn finish<W: Sink>(&mut self, sink: &mut W) -> Result<(), SinkFault>
        requires { MayBeGiven (token_state (W.taken sink.old) (W.failures sink.old) self.old) }

        ensures given { WasGiven
            (token_state (W.taken sink.old) (W.failures sink.old) self.old) []
            (token_state (W.taken sink.new) (W.failures sink.new) self.new) }
        ensures whole { OnOk result (self.new ≡ record { text = []; failed = false }) }
        ensures failed { OnErr result (self.new.failed ≡ true) }
    {
        if self.failed {
            return Err(SinkFault);
        }
        let written = self.buffer.flush(sink);
        self.failed = written.is_err();
        written
    }
}
