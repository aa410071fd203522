//! What FILE names.

/// What FILE names.
#[derive(Clone, Copy)]
pub enum Source<'a> {
    /// Standard input.
    Standard,
    /// A file.
    File(&'a str),
    /// Standard input, which an earlier FILE named: it was read to its end.
    Again,
}
