//! The names that the container draws (RFC 3261 sections 8.1.1.4, 8.1.1.7 and 19.3), with their
//! readers.
#![tactic(auto)]

mod addresses;
mod laws;
mod params;
mod reading;
mod writing;

pub use addresses::{ip_text, put_ip, put_place};
pub use laws::names_are_apart;
pub use params::{ar_value, loose_param, tcp_param};
pub use reading::{read_ap, read_ar, read_branch};
pub use writing::{ap_uri, ar_uri, branch, call_id, edge_tag, put_ap_value, tag};
