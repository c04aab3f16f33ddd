use crate::{Host, Timed};
use sc_value::{Address, List, Message, Region, Sent, Text};

/// What goes with a request that begins an application session.
#[derive(Drop)]
pub struct Note {
    /// The place in the router's list.
    pub order: u32,
    pub region: Region,
    pub subscriber: Text,
    /// The Route that the router or the container took off.
    pub popped: Option<Address>,
}

/// A message on the way from one host to another, or to itself.
#[derive(Drop)]
pub struct Entry {
    pub sender: u32,
    pub receiver: u32,
    pub message: Message,
    pub note: Option<Note>,
}

/// The hosts by number, and the messages between them.
#[derive(Drop)]
pub struct Net<S: Timed> {
    pub hosts: List<Host<S>>,
    /// In the order in which they were sent.
    pub wire: List<Entry>,
    pub epoch: u32,
    /// The last moment, in milliseconds.
    pub moment: u64,
    /// How many events were queued.
    pub count: u64,
    /// What this step sends outside, in order.
    pub sent: List<Sent>,
}
