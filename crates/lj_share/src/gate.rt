//! Gates of tests.

/// What is called round each line that reaches the book. Tests hold lines up by it. Lines that are entered in one hold of the lock
/// pass together before it, and are answered together behind it.
pub trait Gate {
    /// The line, whose number is the second, is about to be handed to the book: its test is over. Takes what time the gate
    /// wants.
    fn pass(&self, seat: u32, line: u64);

    /// The lock is held for the line. Neither it nor a line of the same hold is entered yet. Takes what time the gate wants, in
    /// which no line is entered.
    fn locked(&self, _seat: u32, _line: u64) {}

    /// The answer to the line stands. Takes what time the gate wants.
    fn answered(&self, seat: u32, line: u64);
}

/// The gate that does nothing.
#[derive(Clone, Copy, Debug)]
pub struct NoGate;

impl Gate for NoGate {
    fn pass(&self, _seat: u32, _line: u64) {}

    fn answered(&self, _seat: u32, _line: u64) {}
}
