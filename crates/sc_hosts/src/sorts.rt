/// What a request is to those that may take it. `T` says whose the transaction is that it belongs
/// to, `L` which session it names.
#[derive(Drop)]
pub enum Sort<T, L> {
    /// A CANCEL of a transaction (RFC 3261 section 9.2).
    Cancels(T),
    /// The ACK of a transaction (RFC 3261 section 17.2.3).
    Acks(T),
    /// The request of a transaction, once more (RFC 3261 section 17.2.3).
    Repeats(T),
    /// A request within a dialog, for the session that it names (RFC 3261 section 12.2.2).
    Later(L),
    /// A request that may begin a session.
    Begins,
    /// A request that belongs nowhere.
    Nobodys,
}
