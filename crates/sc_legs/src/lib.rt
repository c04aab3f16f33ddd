//! What an application session knows beside its view: how it begins, in which SipSession a message
//! is handled, and what a message makes of the SipSession (RFC 3261 sections 12 and 13, JSR 289
//! section 6).
#![tactic(auto)]

mod beginning;
mod dialogs;
mod finding;
mod kept;
mod legs;
mod tags;

pub use beginning::{first_got, fresh};
pub use dialogs::{take_answer, take_request, take_sent};
pub use finding::session_for;
pub use kept::stop_proxy;
pub use legs::{caller_of, is_invalid, is_overtaken_leg, leg_among, leg_of, leg_place, new_leg};
pub use tags::{from_tag, is_from, is_low, same_tag, to_tag, with_got};
