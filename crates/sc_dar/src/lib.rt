//! The text of the Default Application Router's table (JSR 289 appendix C), read and written.
#![tactic(auto)]

mod cuts;
mod laws;
mod lines;
mod lists;
mod parts;
mod reading;
mod refused;
mod routes;
mod tuples;
mod unread;
mod words;
mod writing;

pub use laws::written_is_read;
pub use reading::read;
pub use refused::DarRefused;
pub use writing::write;
