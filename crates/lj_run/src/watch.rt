//! What is called as the streams of a run get on.

/// What the workers of a run call as its streams get on, beside one another. Streams are numbered as their reports are.
pub trait Watch {
    /// So many more bytes of the stream were read. Takes what time the watch wants.
    fn read(&self, stream: u32, bytes: usize);

    /// So many more lines of the stream were entered. Takes what time the watch wants.
    fn entered(&self, stream: u32, lines: usize);
}

/// The watch of one stream.
#[derive(Drop)]
pub(crate) struct StreamWatch<'a, V> {
    pub watch: &'a V,
    /// The number of the stream.
    pub stream: u32,
}

impl<V: Watch> StreamWatch<'_, V> {
    /// So many more bytes of it were read.
    pub(crate) fn read(&self, bytes: usize) {
        self.watch.read(self.stream, bytes);
    }

    /// So many more lines of it were entered.
    pub(crate) fn entered(&self, lines: usize) {
        self.watch.entered(self.stream, lines);
    }
}
