//! The outside of the container: where it reads texts by their names ([`Shelf`]), where it puts
//! bytes ([`Sink`]), the connections that it serves ([`Edge`]), where moments ([`Clock`]) and
//! orders to withdraw ([`Orders`]) come from, who is told how the run goes on ([`Notice`]), and
//! what a worker passes before a turn ([`Gate`]). Each has forms in memory, which tell what they
//! hold and fail where they are told to; shelf and sink have real ones over the system.
//!
//! Where one can fail it counts its faults, in counts that never fall and stay at their greatest
//! value. An answer that blames the outside comes only where its count rose.
#![tactic(auto)]

mod clock;
mod edge;
mod file_shelf;
mod gate;
mod keep_notice;
mod list_clock;
mod list_orders;
mod listing;
mod mem_coming;
mod mem_edge;
mod mem_places;
mod mem_puts;
mod mem_shelf;
mod mem_sink;
mod mem_taken;
mod notice;
mod orders;
mod out_sink;
mod plan;
mod putting;
mod shelf;
mod sink;

pub use clock::Clock;
pub use edge::{Closing, Edge, Got, Polled, Put};
pub use file_shelf::FileShelf;
pub use gate::{Gate, OpenGate};
pub use keep_notice::KeepNotice;
pub use list_clock::ListClock;
pub use list_orders::ListOrders;
pub use listing::Listing;
pub use mem_edge::MemEdge;
pub use mem_puts::Share;
pub use mem_shelf::{Item, MemShelf};
pub use mem_sink::MemSink;
pub use notice::{NoNotice, Noted, Notice};
pub use orders::{Order, Orders};
pub use out_sink::OutSink;
pub use putting::put_all;
pub use shelf::{Shelf, Shelved};
pub use sink::{Failed, Sink};
