//! What a channel of one value holds.

/// What a channel of one value holds.
#[derive(Drop)]
pub enum Content<T> {
    /// No value came yet, and the channel is open.
    Empty,
    /// The value that was sent.
    Full(T),
    /// The value was taken, or the channel was closed before one came.
    Spent,
}
