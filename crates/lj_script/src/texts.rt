//! Texts that are read in every cut.
ghost use Rattle.std.specs.Prelude.{◌≡◌, false};

use crate::out::Out;
use crate::stop::Stop;
use lj_clause::{MAX_VARIABLE, NoMemory};
use lj_text::{CnfFaultKind, CnfReader, Line, LineFault, LineFaultKind, LineReader};
use std::alloc::Global;

/// What a text is read as.
#[derive(Clone, Copy)]
pub enum Grammar {
    Formula,
    Proof,
}

/// The bytes that the text stands for.
fn unescaped(alloc: Global, text: &str) -> Result<Vec<u8>, Stop> {
    let mut bytes = Vec::new(alloc);
    let mut is_escaped = false;
    for byte in text.bytes() {
        if is_escaped {
            bytes.push(escape(byte)?)?;
            is_escaped = false;
        } else if byte == b'\\' {
            is_escaped = true;
        } else {
            bytes.push(byte)?;
        }
    }
    Ok(bytes)
}

fn escape(byte: u8) -> Result<u8, Stop> {
    match byte {
        b'n' => Ok(b'\n'),
        b'r' => Ok(b'\r'),
        b't' => Ok(b'\t'),
        b'\\' => Ok(b'\\'),
        _ => Err(Stop::NotACommand),
    }
}

/// The bytes in pieces: cut in two at a place, or behind the last place each byte by itself.
fn pieces_of(alloc: Global, bytes: &[u8], place: usize) -> Result<Vec<&[u8]>, NoMemory> {
    let mut pieces = Vec::new(alloc);
    if place <= bytes.len() {
        let (front, back) = bytes.split_at(place);
        pieces.push(front)?;
        pieces.push(back)?;
    } else {
        for byte in bytes.chunks(1) {
            pieces.push(byte)?;
        }
    }
    Ok(pieces)
}

/// What is told of the text, and of each cut that is told otherwise.
pub fn show(alloc: Global, grammar: Grammar, text: &str, out: &mut Out) -> Result<(), Stop> {
    let bytes = unescaped(alloc, text)?;
    let whole = told(alloc, grammar, &bytes, bytes.len())?;
    out.put(whole.line_so_far())?;
    out.put("\n")?;
    for place in 0..bytes.len().saturating_add(2) {
        let cut = told(alloc, grammar, &bytes, place)?;
        if cut.line_so_far() != whole.line_so_far() {
            out.put("cut at")?;
            out.number(place as u64)?;
            out.put(": ")?;
            out.put(cut.line_so_far())?;
            out.put("\n")?;
        }
    }
    Ok(())
}

fn told(alloc: Global, grammar: Grammar, bytes: &[u8], place: usize) -> Result<Out, NoMemory> {
    let pieces = pieces_of(alloc, bytes, place)?;
    match grammar {
        Grammar::Formula => formula_told(alloc, &pieces),
        Grammar::Proof => proof_told(alloc, &pieces),
    }
}

/// A fault by its name, and its line.
fn put_fault(out: &mut Out, name: &str, line: u64) -> Result<(), NoMemory> {
    out.put(name)?;
    out.number(line)
}

fn formula_told(alloc: Global, pieces: &[&[u8]]) -> Result<Out, NoMemory> {
    let mut out = Out::new(alloc);
    match formula_of(alloc, pieces, &mut out) {
        Ok(()) => Ok(out),
        Err(refused) => Err(refused),
    }
}

fn formula_of(alloc: Global, pieces: &[&[u8]], out: &mut Out) -> Result<(), NoMemory> {
    let mut reader = CnfReader::new(alloc, MAX_VARIABLE);
    for piece in pieces {
        if let Err(fault) = reader.feed(piece) {
            return put_formula_fault(out, fault.kind, fault.line);
        }
    }
    match reader.finish() {
        Ok(formula) => out.formula(&formula),
        Err(fault) => put_formula_fault(out, fault.kind, fault.line),
    }
}

fn put_formula_fault(out: &mut Out, kind: CnfFaultKind, line: u64) -> Result<(), NoMemory> {
    match kind {
        CnfFaultKind::NoMemory(refused) => Err(refused),
        kind => put_fault(out, kind.name(), line),
    }
}

/// What a reader of lines answered.
#[derive(Clone, Copy, PartialEq, Eq)]
enum Said {
    Line,
    Nothing,
    Fault,
}

/// Tells what a reader of lines answered. A line is given back to it.
fn tell(
    out: &mut Out,
    reader: &mut LineReader,
    answer: Result<Option<Line>, LineFault>,
) -> Result<Said, NoMemory>
    ensures { reader.new ≡ reader.old }
{
    match answer {
        Ok(Some(line)) => {
            put_line(out, reader.at(), &line)?;
            reader.reuse(line);
            Ok(Said::Line)
        }
        Ok(None) => Ok(Said::Nothing),
        Err(fault) => {
            put_line_fault(out, &fault)?;
            Ok(Said::Fault)
        }
    }
}

fn put_separator(out: &mut Out) -> Result<(), NoMemory> {
    if out.line_so_far().is_empty() {
        return Ok(());
    }
    out.put("; ")
}

fn put_line(out: &mut Out, at: u64, line: &Line) -> Result<(), NoMemory> {
    put_separator(out)?;
    let number = format!(in out.allocator(); "{at}:")?;
    out.put(&number)?;
    out.line(line)
}

fn put_line_fault(out: &mut Out, fault: &LineFault) -> Result<(), NoMemory> {
    if let LineFaultKind::NoMemory(refused) = fault.kind {
        return Err(refused);
    }
    put_separator(out)?;
    put_fault(out, fault.kind.name(), fault.line)
}

fn tell_next(out: &mut Out, reader: &mut LineReader) -> Result<Said, NoMemory>
    ensures { reader.new.finished ≡ reader.old.finished }
{
    let answer = reader.next();
    tell(out, reader, answer)
}

fn tell_last(out: &mut Out, reader: &mut LineReader) -> Result<Said, NoMemory> {
    let answer = reader.finish();
    tell(out, reader, answer)
}

/// Tells the lines that the reader has. The answer is whether none has a fault.
fn tell_lines(out: &mut Out, reader: &mut LineReader) -> Result<bool, NoMemory>
    requires { reader.old.finished ≡ false }
    ensures { reader.new.finished ≡ false }
{
    for _ in 0..u64::MAX {
        match tell_next(out, reader)? {
            Said::Line => {}
            Said::Nothing => return Ok(true),
            Said::Fault => return Ok(false),
        }
    }
    Ok(true)
}

/// Tells the lines of a piece. The answer is whether none has a fault.
fn tell_piece(out: &mut Out, reader: &mut LineReader, piece: &[u8]) -> Result<bool, NoMemory>
    requires { reader.old.finished ≡ false }
    ensures { reader.new.finished ≡ false }
{
    match reader.feed(piece) {
        Ok(()) => tell_lines(out, reader),
        Err(fault) => {
            put_line_fault(out, &fault)?;
            Ok(false)
        }
    }
}

fn proof_told(alloc: Global, pieces: &[&[u8]]) -> Result<Out, NoMemory> {
    let mut out = Out::new(alloc);
    match lines_of(alloc, pieces, &mut out) {
        Ok(()) => Ok(out),
        Err(refused) => Err(refused),
    }
}

fn lines_of(alloc: Global, pieces: &[&[u8]], out: &mut Out) -> Result<(), NoMemory> {
    let mut reader = LineReader::new(alloc, MAX_VARIABLE);
    for piece in pieces {
        if !tell_piece(out, &mut reader, piece)? {
            return Ok(());
        }
    }
    for _ in 0..u64::MAX {
        if tell_last(out, &mut reader)? != Said::Line {
            break;
        }
    }
    Ok(())
}
