//! Lists of numbered items in pages, of which a copy and a walk cost little where most items rest.
//!
//! A contract sees [`Pages`] as the list of its items. Underneath, all but the newest stand in pages
//! that copies have in common: a copy is one owner more, and a change makes a page of its own of the
//! one that it touches. Each page has an outline: which numbers stand in it, and
//! whether all of its items rest, so that a search for others passes it by.
#![tactic(auto)]

mod change;
mod changing;
mod copies;
mod outline;
mod owning;
mod page;
mod paged;
mod pages;
mod runs;
mod same;
mod scope;
mod searching;
mod shelf;
mod turning;

pub use change::{Change, Probe};
pub use page::Page;
pub use paged::Paged;
pub use pages::Pages;
pub use runs::Run;
pub use scope::Scope;
