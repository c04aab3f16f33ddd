//! Lists of items of which a copy costs one owner, and in which the items of a group, what is due
//! and the first that waits are found without a walk.
//!
//! A contract sees [`Rows`] and [`Line`] as the list of their items in order. Underneath, a book
//! has a base, which its copies share, and changes of its own that lie over it. Who gives a copy up
//! has changed nothing. Who keeps the copy and lets go of the former one calls `settle`: the base
//! then has one owner, and takes the changes in place.
#![tactic(auto)]

mod base;
mod book;
mod copying;
mod counted;
mod counts;
mod entry;
mod finding;
mod firsts;
mod gathering;
mod index;
mod indexes;
mod item;
mod keeping;
mod keys;
mod line;
mod numbers;
mod probe;
mod rows;
mod settling;
mod shared_base;
mod top;
mod topped;
mod walking;
mod wanted;

pub use item::{Item, Keyed};
pub use line::Line;
pub use probe::Probe;
pub use rows::Rows;
