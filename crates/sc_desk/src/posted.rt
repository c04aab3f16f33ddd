use sc_edge::Order;

/// An order, with the number of the poster that posted it.
#[derive(Clone, Copy, Debug, PartialEq, Eq)]
pub struct Posted {
    pub by: u32,
    pub order: Order,
}
