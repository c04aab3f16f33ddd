ghost use Rattle.std.specs.Prelude.{◌≡◌};
ghost use Rattle.crossbeam_queue.specs.Passes.{ruled_capacity};

use crate::bell::Bell;
use crate::jobs::JobQueue;
use crate::results::ResultQueue;

/// A queue of jobs and a queue of results, which threads share by reference. It holds at most its
/// room of each.
#[derive(Drop)]
pub struct Board {
    pub(crate) jobs: JobQueue,
    pub(crate) results: ResultQueue,
    /// Rings where a job was posted.
    pub(crate) posted: Bell,
    /// Rings where a result was brought.
    pub(crate) brought: Bell,
    /// Rings where a worker begins.
    pub(crate) begun: Bell,
    pub ghost alike: { ruled_capacity results ≡ ruled_capacity jobs },
}
