/// A kind of application that every container comes with. Each is a servlet of its own; where one
/// of several is wanted, this stands for it.
#[derive(Clone, Copy, Debug, PartialEq, Eq)]
pub enum BuiltIn {
    /// [`Answers`](sc_apps::Answers).
    Answer,
    /// [`Blocks`](sc_apps::Blocks).
    Block,
    /// [`Forwards`](sc_apps::Forwards).
    Forward,
    /// [`Forks`](sc_apps::Forks).
    Fork,
    /// [`Records`](sc_apps::Records).
    Recorder,
    /// [`B2bs`](sc_apps::B2bs).
    B2b,
    /// [`Dials`](sc_apps::Dials).
    Dial,
    /// [`Reverses`](sc_apps::Reverses).
    Reverse,
    /// [`Rings`](sc_apps::Rings).
    Ringer,
    /// [`Offers`](sc_offers::Offers).
    Early,
    /// [`Refreshes`](sc_refreshes::Refreshes).
    Timed,
    /// [`Notifies`](sc_notifies::Notifies).
    Notify,
}
