//! The texts: lines of LRAT proofs, DIMACS CNF, steps and their text, and the streams that bytes come from and go to.
//!
//! A call takes constant time where neither it nor its type tells a cost.
#![tactic(auto)]

mod as_step;
mod boxed;
mod bytes;
mod bytes_so_far;
mod cnf;
pub mod examples;
mod groups;
pub mod laws;
mod line;
mod lines;
mod numbers;
mod sink;
mod source;
mod step;
mod writer;

pub use as_step::AsStep;
pub use boxed::Boxed;
pub use cnf::{CnfFault, CnfFaultKind, CnfReader, spells_or_has_a_fault};
pub use groups::{Group, Groups, GroupsIter, IndexedGroups, LentGroup};
pub use line::{Addition, Line};
pub use lines::{LineFault, LineFaultKind, LineReader};
pub use numbers::{Numbers, NumbersIter};
pub use sink::{MemorySink, Sink, SinkFault, WriterSink, write_all};
pub use source::{ReaderSource, Source, SourceFault};
pub use step::Step;
pub use writer::{LineToken, ProofWriter, TokenWriter, WriteFault, write_proof};
