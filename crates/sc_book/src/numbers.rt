/// The numbers by which an item is found.
#[derive(Clone, Copy)]
pub struct Numbers {
    /// The least moment at which something of it is due.
    pub due: Option<u64>,
    /// The number of the first event that waits in it.
    pub first: Option<u64>,
    pub groups: (u64, u64),
}
