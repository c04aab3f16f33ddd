//! The application's side: servlets and listeners, the catalogue of their kinds, and turns that are
//! lent out, made and brought back (JSR 289 sections 3, 6 and 9).
#![tactic(auto)]

mod catalogue;
mod done;
mod lease;
mod react;
mod servlets;

pub use catalogue::{AddRefused, Catalogue, Kind};
pub use done::Done;
pub use lease::Lease;
pub use react::is_listened;
pub use servlets::{Listener, SipServlet};
