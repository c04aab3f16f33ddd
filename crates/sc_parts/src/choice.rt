use sc_value::{Address, Discard, List, Region, Text};

/// Where the router sends an initial request (JSR 289 section 15.6).
#[derive(Drop)]
pub enum Choice {
    /// To an application.
    App {
        /// The application's place in the configuration, which is the number of its host.
        host: u32,
        /// The tuple's place in its method's list, from 0.
        order: u32,
        region: Region,
        subscriber: Text,
        /// The route that led to it, where the table has one that is the container's own.
        popped: Option<Address>,
    },
    /// Out of the container, with these routes on top.
    Send(List<Address>),
    /// On, as the request says: no application is left, and it has a Route or a Request-URI that
    /// isn't the container's.
    Onward,
    /// Nowhere: no application is left, and the request has neither.
    NotFound,
}

impl Discard for Choice {
    fn discard(self) {
        drop(self);
    }
}
