//! Where the lines of a stream are entered.
ghost use Rattle.std.specs.Prelude.{◌≡◌, ◌+◌, ◌≤◌, ◌++◌, ◌⊎◌, ℕ, List, [], None, Some, IfSome, true, false, length, map, take, slice_get};
ghost use Rattle.lj_text.specs.Lines.{Said};
ghost use Rattle.lj_text.specs.declared.line.Line.{Line};
ghost use Rattle.lj_book.specs.declared.refusal.Refusal.{Refusal};
ghost use Rattle.lj_share.specs.declared.numbered.Numbered.{Numbered};
ghost use Rattle.lj_run.specs.inner.Block.{said_in_block};

use lj_book::Refusal;
use lj_share::Numbered;
use std::sync::Wait;

/// A seat of a book, through which the lines of a stream are entered.
pub(crate) trait Entering {
    /// The most lines that are handed in together.
    const BLOCK: usize;

    /// These lines, entered one after another, lead from the one to the other.
    ghost entered: { Self → List Said → Self → Type 0 };

    /// The line is refused so.
    ghost refused: { Self → Line → Refusal → Type 0 };

    /// What holds where the verdict stands.
    ghost stopped: { Self → Type 0 };

    /// What holds where lines are still entered.
    ghost goes_on: { Self → Type 0 };

    /// How many entries it knows of.
    ghost known: { Self → ℕ };

    /// Whether the verdict stands, so that no more lines are read.
    fn is_stopped(&self) -> bool
        ensures stopped { result ≡ true → stopped self.now }
        ensures goes_on { result ≡ false → goes_on self.now };

    /// How many entries it knows of.
    fn entries(&self) -> u64
        ensures { result ≡ known self.now };

    /// Enters lines, in order, up to the first that is refused or meets the verdict; gives how many were entered, and the refusal.
    fn enter_lines<R: Wait>(&mut self, rt: &R, lines: &[Numbered]) -> (usize, Option<Refusal>)
        ensures within { result.0 ≤ length lines.now }
        ensures entered { entered self.old (map said_in_block (take result.0 lines.now)) self.new }
        ensures known { known self.new ≡ known self.old + result.0 }
        ensures all { result.1 ≡ None → (result.0 ≡ length lines.now) ⊎ stopped self.new }
        ensures refused { IfSome result.1 (λ e. (line : Numbered)
            × (slice_get lines.now result.0 ≡ Some line)
            × refused self.new line.line e × goes_on self.new) };

    /// No lines lead nowhere.
    ghost none: { (at : Self) → entered at [] at };

    /// Lines and further ones lead as far as both.
    ghost further: { (first mid last : Self) (front rest : List Said) → entered first front mid
        → entered mid rest last → entered first (front ++ rest) last };
}
