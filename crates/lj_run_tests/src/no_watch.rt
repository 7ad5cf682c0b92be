//! The watch that does nothing.
use lj_run::Watch;

#[derive(Clone, Copy, Debug)]
pub struct NoWatch;

impl Watch for NoWatch {
    fn read(&self, _stream: u32, _bytes: usize) {}

    fn entered(&self, _stream: u32, _lines: usize) {}
}
