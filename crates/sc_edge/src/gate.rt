use sc_value::AppId;

/// What a worker passes before it calls a servlet. Workers pass it side by side.
pub trait Gate: Sync {
    /// Passes before the turn of this session on the event of this number. It may wait.
    fn pass(&self, app: AppId, event: u64);
}

/// A gate that lets each worker pass at once.
#[derive(Clone, Copy, Debug, PartialEq, Eq)]
pub struct OpenGate;

impl Gate for OpenGate {
    fn pass(&self, _app: AppId, _event: u64) {}
}
