//! Steps that no run accepts, written whole and trimmed. Each outcome is computed by hand.
use lj_clause::{Formula, MAX_VARIABLE};
use lj_text::{CnfReader, Line, LineFault, LineReader, MemorySink, Step, write_proof};
use lj_trim::{TrimRefusal, trim};
use std::alloc::Global;
use std::test::Fail;

/// The clauses `1 2`, `-1 2`, `1 -2` and `-1 -2`, as a text.
pub const BINARY_TEXT: &str = "p cnf 2 4\n1 2 0\n-1 2 0\n1 -2 0\n-1 -2 0\n";

/// The same with a third variable.
const FOUR_TEXT: &str = "p cnf 3 4\n1 2 0\n-1 2 0\n1 -2 0\n-1 -2 0\n";

/// The formula that a text spells.
fn formula_of(alloc: Global, text: &str) -> Result<Formula, Fail> {
    let mut reader = CnfReader::new(alloc, MAX_VARIABLE);
    reader.feed(text.as_bytes())?;
    Ok(reader.finish()?)
}

/// The next line that the reader has.
fn next_line(reader: &mut LineReader) -> Result<Option<Line>, LineFault> {
    reader.next()
}

/// The additions and deletions that lines spell, as steps.
pub fn steps_of(alloc: Global, lines: &str) -> Result<Vec<Step>, Fail> {
    let mut reader = LineReader::new(alloc, MAX_VARIABLE);
    reader.feed(lines.as_bytes())?;
    let mut steps = Vec::new(alloc);
    for _ in 0..lines.len() {
        match next_line(&mut reader)? {
            Some(Line::Add(addition)) => steps.push(Step::Add(addition.into_inner()))?,
            Some(Line::Delete(numbers)) => {
                let numbers = numbers.into_inner();
                steps.push(Step::Delete { numbers })?;
            }
            _ => break,
        }
    }
    Ok(steps)
}

/// Steps whose numbers fall: a deletion begins with the greatest number before it.
const FALLING: &str = "7 -2 3 -1 0 1 -2 3 4 -5 0\n9 d 3 5 0\n6 1 0 7 0\n1 d 6 0\n";

/// The same as they are written.
const FALLING_TEXT: &str = "7 -2 -1 3 0 1 -2 3 4 -5 0\n7 d 3 5 0\n6 1 0 7 0\n7 d 6 0\n";

#[test]
fn steps_are_written_whole_and_trimmed(rt: HostRuntime) -> Result<(), Fail> {
    let mut sink = MemorySink::new(rt.alloc());
    write_proof(&mut sink, 4, &steps_of(rt.alloc(), FALLING)?)?;
    assert_eq!(rt; sink.bytes(), FALLING_TEXT.as_bytes());
    let cases = [
        (
            "5 2 0 1 2 0\n6 1 0 1 3 0\n7 0 5 3 4 0\n8 3 0 7 0\n",
            "5 2 0 1 2 0\n7 0 5 3 4 0\n",
        ),
        (
            "5 -3 1 2 0 1 0\n6 3 1 0 -5 1 0\n7 1 0 6 1 3 0\n7 d 5 3 0\n8 0 7 2 4 0\n",
            "6 3 1 0 0\n7 1 0 6 1 3 0\n7 d 3 0\n8 0 7 2 4 0\n",
        ),
        (
            "6 3 0 0\n5 1 0 0\n7 2 0 1 -4 6 -6 0\n7 d 5 0\n7 d 2 0\n900000000000 0 7 3 0\n",
            "6 3 0 0\n7 2 0 1 -4 6 -6 0\n7 d 2 0\n900000000000 0 7 3 0\n",
        ),
        (
            "8 1 0 0\n9 3 0 0\n10 2 0 1 -4 3 -9 8 0\n11 0 10 0\n",
            "8 1 0 0\n10 2 0 1 -4 3 0\n11 0 10 0\n",
        ),
        (
            "900000000000 2 0 1 2 0\n5 0 900000000000 3 4 0\n",
            "900000000000 2 0 1 2 0\n5 0 900000000000 3 4 0\n",
        ),
    ];
    let formula = formula_of(rt.alloc(), FOUR_TEXT)?;
    for (lines, text) in cases {
        let steps = steps_of(rt.alloc(), lines)?;
        let kept = trim(rt.alloc(), &formula, &steps)?;
        let mut sink = MemorySink::new(rt.alloc());
        write_proof(&mut sink, 4, &kept)?;
        assert_eq!(rt; sink.bytes(), text.as_bytes(), "{lines}");
    }
    for lines in ["", "5 2 0 1 2 0\n"] {
        let steps = steps_of(rt.alloc(), lines)?;
        let kept = trim(rt.alloc(), &formula, &steps);
        assert!(rt; matches!(kept, Err(TrimRefusal::NoRefutation)), "{lines}");
    }
    Ok(())
}
