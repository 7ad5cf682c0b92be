//! Readers between two pieces, and behind a fault.
ghost use Rattle.std.specs.Prelude.{◌≡◌};

use lj_clause::MAX_VARIABLE;
use lj_text::{CnfReader, Line, LineFault, LineReader};
use std::alloc::Global;
use std::process::Abort;
use std::test::Fail;

/// The fault of the next line, if it has one.
fn next_fault(reader: &mut LineReader) -> Option<LineFault>
    ensures { reader.new.finished ≡ reader.old.finished }
{
    reader.next().err()
}

/// The number of the addition that comes next, and how many hints it has.
fn next_addition(reader: &mut LineReader) -> Option<(u64, usize)>
    ensures { reader.new.finished ≡ reader.old.finished }
{
    match reader.next() {
        Ok(Some(Line::Add(addition))) => Some((addition.number, addition.hints.len())),
        _ => None,
    }
}

fn assert_line_reader(rt: &impl Abort, alloc: Global) -> Result<(), Fail> {
    let mut reader = LineReader::new(alloc, MAX_VARIABLE);
    reader.feed(b"5 2 0 1")?;
    assert!(rt; next_addition(&mut reader).is_none());
    assert!(rt; reader.at() == 1 && reader.buffered() == 7);
    reader.feed(b"2 0\n5 x\n6 d 1 0\n")?;
    assert!(rt; next_addition(&mut reader) == Some((5, 1)));
    let fault = next_fault(&mut reader);
    assert!(rt; fault.is_some_and(|f| f.line == 2));
    assert!(rt; next_fault(&mut reader) == fault);
    assert!(rt; reader.feed(b"5 d 1 0\n").err() == fault);
    assert!(rt; reader.finish().err() == fault);
    Ok(())
}

fn assert_formula_reader(rt: &impl Abort, alloc: Global) {
    let mut reader = CnfReader::new(alloc, MAX_VARIABLE);
    let fault = reader.feed(b"p cnf 2 1\n1 x\n").err();
    assert!(rt; fault.is_some_and(|f| f.line == 2));
    assert!(rt; reader.feed(b"").err() == fault);
    assert!(rt; reader.finish().err() == fault);
}

/// A reader of lines holds what came of a line; a fault is told again by every call.
#[test]
fn readers_hold_a_line_and_a_fault(rt: HostRuntime) -> Result<(), Fail> {
    assert_line_reader(&rt, rt.alloc())?;
    assert_formula_reader(&rt, rt.alloc());
    Ok(())
}
