//! What an import finds.

/// What lives of a wanted clause.
#[derive(Clone, Copy, Debug)]
pub(crate) enum Found {
    /// The least number of an equal clause.
    Equal(u64),
    /// The least number of a part of it, where no equal one lives.
    Part(u64),
    /// No part of it lives.
    Neither,
}
