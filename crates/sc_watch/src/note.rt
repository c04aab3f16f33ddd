/// The name of a listing: its epoch and its steps.
#[derive(Clone, Copy, Debug, PartialEq, Eq)]
pub struct Note {
    pub(crate) epoch: u32,
    pub(crate) steps: u64,
}
