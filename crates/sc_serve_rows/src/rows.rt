//! The rows of the cases.

use crate::letters::Letter;
use sc_edge::{Order, Share};

/// What a poll of the edge is to answer. The number is that of a connection.
#[derive(Clone, Copy)]
pub enum Come {
    /// The text.
    All(u64, Letter),
    /// So many bytes from the front of the text.
    Front(u64, Letter, usize),
    /// The text without so many bytes from its front.
    Back(u64, Letter, usize),
    /// Both texts in one piece.
    Both(u64, Letter, Letter),
    End(u64),
    Failed(u64),
    NotYet,
    Fault,
}

/// A case: what the outside gives, and the lines that are told then.
#[derive(Clone, Copy)]
pub struct Row {
    pub name: &'static str,
    /// More lines of the configuration.
    pub settings: &'static [u8],
    /// What comes; behind it the edge is closed.
    pub coming: &'static [Come],
    /// What each of the first `shares` puts takes. Each later one takes all.
    pub share: Share,
    pub shares: u64,
    /// The number of the put that fails, from 1; 0 for none.
    pub failing: u64,
    /// What the clock tells, once for each round.
    pub moments: &'static [u64],
    /// What is ordered, once for each round.
    pub orders: &'static [Option<Order>],
    pub told: &'static [u8],
}

/// The row that nothing comes to.
pub const EMPTY: Row = Row {
    name: "",
    settings: b"",
    coming: &[],
    share: Share::NotYet,
    shares: 0,
    failing: 0,
    moments: &[],
    orders: &[],
    told: b"",
};
