//! The values that the whole container speaks of: texts, lists, names of sessions, outside places,
//! and SIP messages with all their parts (RFC 3261 section 7).
//!
//! A contract sees a [`Text`] as its bytes and a [`List`] as its items, so every message is plain
//! data there: two messages are equal exactly where all their parts are.
#![tactic(auto)]

mod answerable;
mod boxed;
mod clone_in;
mod discard;
mod header_value;
mod ids;
mod known;
mod list;
mod long_text;
mod message;
mod message_copies;
mod names;
mod no_memory;
mod numbers;
mod other_uri;
mod others;
mod part_copies;
mod parts;
mod places;
mod plain;
mod reason;
mod same;
mod shared;
mod shared_list;
mod short_text;
mod shown_text;
mod text;
mod token;
mod tokens;

pub use answerable::Answerable;
pub use boxed::Boxed;
pub use clone_in::{CloneIn, copied};
pub use discard::Discard;
pub use header_value::HeaderValue;
pub use ids::{AppId, Directive, Place, Region, ReqId, SessId, TimerId};
pub use list::List;
pub use message::{Head, Message, Request, Response, Sent};
pub use message_copies::{Names, names_of};
pub use names::{is_system_name, long_name, same_name};
pub use no_memory::NoMemory;
pub use numbers::{number_after, sum, sum_u8, sum_u32, write_counted, write_u64};
pub use other_uri::OtherUri;
pub use others::{Others, is_other};
pub use parts::{
    Address, CSeq, Contact, Field, Param, SipUri, Uri, Via, branch, param_value, plain_address, tag,
};
pub use places::same_place;
pub use plain::write_plain;
pub use reason::Reason;
pub use same::Same;
pub use shared::{Shared, shared_value};
pub use shared_list::SharedList;
pub use text::Text;
pub use token::Token;
pub use tokens::{is_blank, is_one_line, is_token, is_token_byte, is_value};
