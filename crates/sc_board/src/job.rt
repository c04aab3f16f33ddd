use sc_servlets::Lease;

/// What a worker takes from the board.
#[derive(Drop)]
pub enum Job {
    /// The turn of this lease is to be made.
    Turn(Lease),
    /// The worker that takes it ends.
    Stop,
}
