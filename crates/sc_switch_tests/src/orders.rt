//! What a case does with its switch, as data.

use crate::letters::Letter;
use sc_value::AppId;

/// One thing that is done with the switch of a case. The leases that are out stand in the order in
/// which they were lent.
#[derive(Clone, Copy)]
pub enum Order {
    /// This message comes from its place.
    In(Letter),
    /// An INFO of Alice in the dialog of the INVITE comes, of this number of CSeq, with a branch of
    /// its own.
    Info(u64),
    /// The INFOs come of the numbers from the first up to, and without, the second.
    Infos(u64, u64),
    /// An OPTIONS comes that begins a session, each number with a branch of its own.
    Options(u64),
    /// The clock reaches this moment.
    Tick(u64),
    /// The place at this port of 127.0.0.1 is lost.
    Lost(u16),
    /// The application session is withdrawn.
    Withdraw(AppId),
    /// The next event is lent out, and its turn is made and brought.
    Turn,
    /// The next event is lent out.
    Lend,
    /// The first event of this application session is lent out.
    LendOf(AppId),
    /// What the last lease shows is told.
    Show,
    /// A copy of the first lease is out too.
    Double,
    /// The first lease gets another parameter.
    Forge,
    /// The first lease gets this number.
    Number(u64),
    /// The turn of the first lease is made and brought.
    Bring,
    /// The turn of the first lease is made by a servlet of another charter, and brought.
    BringOther,
    /// What is sent is left with the switch from now on.
    Leave,
    /// What is sent is taken again.
    Take,
    /// The numbers of the kept steps, of live sessions, of waiting events and of live leases are
    /// told.
    Count,
    /// The listing is told.
    List,
    /// The epoch ends.
    EndEpoch,
    /// The kept steps are handed on.
    HandOn,
    /// All steps of the epoch are told.
    Steps,
}

/// The application session that the first request begins.
pub const FIRST: AppId = AppId { host: 0, serial: 1 };

/// The one that the next request to the same application begins.
pub const SECOND: AppId = AppId { host: 0, serial: 2 };
