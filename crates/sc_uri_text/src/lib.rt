//! The text of URIs, read and written (RFC 3261 section 19.1).
#![tactic(auto)]

mod classes;
mod copies;
mod growing;
mod hosts;
mod params;
mod pieces;
mod reading;
mod refused;
mod sent;
mod writing;

pub use copies::{copy_of, shared_copy_of};
pub use growing::{Growing, put_number};
pub use hosts::is_host;
pub use pieces::{put_byte, put_ended, put_port, put_signed};
pub use reading::read;
pub use refused::UriRefused;
pub use sc_ascii::{begins, cut};
pub use sent::read_sent;
pub use writing::{put_params, put_uri, write};
