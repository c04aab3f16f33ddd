//! A watch on a server that runs: what lives is put there as the server tells it, and readers in
//! other threads take it, never an older listing after a newer one.
#![tactic(auto)]

mod note;
mod reading;
mod shown;
mod watch;
mod watch_notice;

pub use note::Note;
pub use reading::Reading;
pub use shown::{Knows, Shown};
pub use watch::Watch;
pub use watch_notice::WatchNotice;
