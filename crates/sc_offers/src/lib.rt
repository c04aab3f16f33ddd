//! Reliable provisional responses (RFC 3262): the calls with which a servlet offers them and takes
//! their PRACKs, at any point of its turn, and the servlet of this kind that every container comes
//! with, which keeps its charter (JSR 289 sections 3 and 9). What they remember of an INVITE stands
//! in the attribute `rel` with the INVITE's number, which nothing else is to write.
#![tactic(auto)]

mod offer_texts;
mod offering;
mod offers;
mod overdue;
mod pending;
mod pracks;
mod refused;
mod rseqs;
mod words;

pub use offering::offer;
pub use offers::Offers;
pub use overdue::late;
pub use pracks::{invite_of, take_prack};
pub use refused::{OfferRefused, Prack};
