ghost use Rattle.crossbeam_queue.specs.Passes.{view};
ghost use Rattle.sc_board.specs.Ties.{AreAlike, IsMadeOf};

use crate::jobs::JobPass;
use crate::results::ResultPass;

/// What a thread holds to use the board: no two threads use one. It has no bytes.
///
/// Its type keeps that the leases that it took are those whose results it brought and those that it
/// has in hand, each as often. The parts of a pass that is let go of are lost.
#[derive(Drop)]
pub struct BoardPass {
    pub(crate) jobs: JobPass,
    pub(crate) results: ResultPass,
    pub ghost alike: { AreAlike (view jobs) (view results) },
    pub ghost tied: { IsMadeOf (view jobs).taken (view results).brought (view jobs).hand },
}
