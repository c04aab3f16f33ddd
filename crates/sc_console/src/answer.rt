/// What became of a line of the console.
#[derive(Clone, Copy, Debug, PartialEq, Eq)]
pub enum Console {
    /// `list` was answered.
    Listed,
    /// `drop` was posted as an order.
    Posted,
    /// `drop` found the desk full.
    Full,
    /// It is another line.
    Unknown,
}
