//! An order desk: posters in other threads order that application sessions be withdrawn, and one
//! taker, the rounds of a server, takes the orders.
//!
//! The pass that [`Desk::new`] gives takes orders. A pass is split off it for each poster, and
//! joined to it at the end. Each pass keeps, in contracts alone, what it posted or took.
#![tactic(auto)]

mod desk;
mod desk_orders;
mod desk_pass;
mod desk_queue;
mod posted;

pub use desk::Desk;
pub use desk_orders::DeskOrders;
pub use desk_pass::DeskPass;
pub use desk_queue::{DeskView, Ended};
pub use posted::Posted;
