use sc_value::{AppId, List};

/// What lives at a moment between two steps.
#[derive(Drop)]
pub struct Listing {
    /// The epoch's number.
    pub epoch: u32,
    /// How many steps the epoch's journal has.
    pub steps: u64,
    /// The application sessions that live, by host and serial.
    pub live: List<AppId>,
    /// How many events wait.
    pub waiting: u64,
}
