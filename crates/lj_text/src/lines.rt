//! Lines of a stream, by the grammar of LRAT.

mod buffer;
mod closing;
mod cut;
mod deletion;
mod fault;
mod hints;
mod judge;
mod literals;
mod look;
mod one_pass;
mod parse;
mod reader;
mod runs;
mod scratch;

pub(crate) use cut::first_line;
pub use fault::{LineFault, LineFaultKind};
pub use reader::LineReader;
