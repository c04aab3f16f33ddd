//! The values of headers that have a structure, read (RFC 3261 section 20): Via, the addresses of
//! From, To, Route, Record-Route and Contact, CSeq, Max-Forwards and Content-Length. A value is
//! taken without its name; blanks at its ends don't count, but round a bare number.
#![tactic(auto)]

mod addresses;
mod laws;
mod named;
mod params;
mod parts;
mod scanning;
mod sequences;
mod unread;
mod vias;
mod words;

pub use addresses::{read_address, read_addresses, read_contacts};
pub use laws::written_is_read;
pub use sequences::{read_cseq, read_hops, read_length};
pub use unread::Unread;
pub use vias::read_vias;
