//! Putting what is left to the places.

ghost use Rattle.std.specs.Prelude.{◌≡◌, [], IfErr, OnOk, OnErr};
ghost use Rattle.sc_edge.specs.Edges.{CountsOn};
ghost use Rattle.sc_edge.specs.EdgeCalls.{IsNoPoll};
ghost use Rattle.sc_courses.specs.Courses.{Beginning};
ghost use Rattle.sc_rounds.specs.Dues.{HasDue};
ghost use Rattle.sc_rounds.specs.Polling.{GivesOn, TellsOn};
ghost use Rattle.sc_rounds.specs.Serving.{Ended, Serves};
ghost use Rattle.sc_streams.specs.Streaming.{bytes_of};

use crate::polling::fail;
use crate::stepping::Core;
use sc_edge::{Edge, Notice, Put};
use sc_journal::Journal;
use sc_streams::Streams;
use sc_switch::StepRefused;
use sc_terms::Step;
use sc_value::Place;

/// What a put came to.
#[derive(Clone, Copy, Debug, PartialEq, Eq)]
pub enum Went {
    /// Bytes were taken.
    On,
    /// None were taken.
    Nothing,
    /// The place failed.
    Failed,
}

/// Puts what is left to a place once. A place that fails is lost.
///
/// # Errors
///
/// `JournalFull` where the journal has no room for the loss, and `NoMemory`.
pub fn put_place<E: Edge, N: Notice<Journal<Step>>>(
    core: &mut Core,
    streams: &mut Streams,
    edge: &mut E,
    notice: &mut N,
    place: Place,
) -> Result<Went, StepRefused>
    ensures ok { (from : Beginning)
        → Serves from (E.state edge.old) (N.noted notice.old) core.old streams.old
        → OnOk result (Serves from (E.state edge.new) (N.noted notice.new) core.new streams.new) }
    ensures err { (from : Beginning)
        → Serves from (E.state edge.old) (N.noted notice.old) core.old streams.old
        → OnErr result (Ended from (E.state edge.new) (N.noted notice.new) core.new.switch) }
    ensures due { IfErr result (λ cause. HasDue core.new.switch cause) }
    ensures later { CountsOn (E.state edge.old) (E.state edge.new) }
    ensures polled { IsNoPoll (E.state edge.old) (E.state edge.new) }
    ensures tells { TellsOn (E.state edge.old) (E.state edge.new) }
    ensures gives { GivesOn (E.state edge.old) (E.state edge.new) (bytes_of streams.old) []
        (bytes_of streams.new) }
    ensures closes { (E.state edge.new).closes ≡ (E.state edge.old).closes }
{
    match core.outs.put(edge, place) {
        Put::Wrote(_) => Ok(Went::On),
        Put::NotYet => Ok(Went::Nothing),
        Put::Failed => match fail(core, streams, notice, place) {
            Ok(()) => Ok(Went::Failed),
            Err(cause) => Err(cause),
        },
    }
}
