use crate::{CallRecord, End};
use sc_value::{Answerable, AppId, Boxed, List, Message, Place, Text};

/// A text on a stream that isn't a message.
#[derive(Drop)]
pub struct Bad {
    /// Where it goes wrong, in bytes from its first byte.
    pub at: usize,
    /// What is wrong there.
    pub kind: u8,
    /// Its headers, where it is a request that can be answered.
    pub heads: Option<Boxed<Answerable>>,
}

/// One step of the container, as its journal keeps it.
#[derive(Drop)]
pub enum Step {
    /// A message came from a place.
    In(Place, Message),
    /// A text that isn't a message came from a place.
    Bad(Place, Bad),
    /// A place was lost: nothing more comes from it or goes there.
    Lost(Place),
    /// The clock reached this moment, in milliseconds.
    Tick(u64),
    /// An application session handled the event of this number at this moment.
    Turn {
        end: End,
        app: AppId,
        event: u64,
        now: u64,
        calls: List<CallRecord>,
    },
    /// An application session was ended from outside.
    Withdraw(AppId),
}

/// A line of a script.
#[derive(Drop)]
pub enum Line {
    /// These bytes come from a place.
    In(Place, Text),
    /// This application session takes a turn, where an event waits for it.
    Turn(AppId),
    /// Turns are taken until no event waits.
    Run,
    /// The clock reaches this moment, in milliseconds.
    Tick(u64),
    /// A place is lost.
    Lost(Place),
    /// This application session is ended from outside.
    Drop(AppId),
    /// The last line.
    End,
}
