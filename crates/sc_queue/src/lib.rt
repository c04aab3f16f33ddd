//! Lists that grow at their end and of which a copy costs little however long they are, and queues
//! of such lists. A contract sees a [`LongList`] and a [`Queue`] as the list of their items.
#![tactic(auto)]

mod copies;
mod joining;
mod long_lists;
mod queues;

pub use long_lists::LongList;
pub use queues::Queue;
