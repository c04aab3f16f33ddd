/// Which items are gathered.
#[derive(Clone, Copy)]
pub enum Wanted {
    All,
    /// Those of a group.
    Of(u64),
    /// Those that are due before a moment.
    Before(u64),
}
