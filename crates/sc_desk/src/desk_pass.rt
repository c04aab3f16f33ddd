ghost use Rattle.crossbeam_queue.specs.Passes.{view};
ghost use Rattle.sc_desk.specs.DeskRules.{IsNumbered};

use crate::desk_queue::QueuePass;

/// What a thread holds to use a desk: no two threads use one.
#[derive(Drop)]
pub struct DeskPass {
    pub(crate) queue: QueuePass,
    /// A poster's number; of the taker, how many posters it made.
    pub(crate) number: u32,
    pub ghost numbered: { IsNumbered (view queue) number },
}
