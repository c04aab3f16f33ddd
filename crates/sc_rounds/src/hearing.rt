//! The steps that the bytes of an answer make (RFC 3261 section 18.3).

ghost use Rattle.std.specs.Prelude.{◌≡◌, ◌<◌, ◌⊎◌, [], length, true, false, Ok, IfOk, IfErr, OnOk, OnErr};
ghost use Rattle.sc_hosts.specs.Runs.{HasVia};
ghost use Rattle.sc_tokens.specs.Bytes.{Bytes};
ghost use Rattle.sc_edge.specs.Edges.{EdgeState};
ghost use Rattle.sc_runs.specs.Following.{IsKept};
ghost use Rattle.sc_courses.specs.Courses.{Beginning};
ghost use Rattle.sc_rounds.specs.Dues.{HasDue};
ghost use Rattle.sc_rounds.specs.GivingUp.{GaveUp, HearsOne, HearsOut, place_if};
ghost use Rattle.sc_rounds.specs.Hearing.{BrokeOff, BrokeUpto};
ghost use Rattle.sc_rounds.specs.Serving.{Ended, Serves, ServesMore, ServesOn, Stopped, Took};
ghost use Rattle.sc_streams.specs.Streaming.{bytes_of};

use crate::stepping::Core;
use sc_edge::Notice;
use sc_journal::Journal;
use sc_stream::Heard;
use sc_streams::Streams;
use sc_switch::StepRefused;
use sc_terms::{Bad, Step};
use sc_value::{Message, Place};

/// Takes the steps of all messages that are whole. `broken` is set where the place gave what is no
/// message, or one that is too long: nothing of it is heard any more, and it is to be closed.
///
/// # Errors
///
/// `JournalFull` where the journal has no room for a step, and `NoMemory`. The steps before it
/// stand.
pub fn hear_all<N: Notice<Journal<Step>>>(
    core: &mut Core,
    streams: &mut Streams,
    notice: &mut N,
    at: Place,
    broken: &mut bool,
) -> Result<(), StepRefused>
    ensures ok { (from : Beginning) (edge : EdgeState) (text : Bytes)
        → ServesOn from edge (N.noted notice.old) core.old streams.old at text
        → OnOk result (Serves from edge (N.noted notice.new) core.new streams.new) }
    ensures err { (from : Beginning) (edge : EdgeState) (text : Bytes)
        → ServesOn from edge (N.noted notice.old) core.old streams.old at text
        → OnErr result (Ended from edge (N.noted notice.new) core.new.switch) }
    ensures gave { (from : Beginning) (edge : EdgeState) (text : Bytes)
        → ServesOn from edge (N.noted notice.old) core.old streams.old at text
        → broken.new ≡ true → (broken.old ≡ true) ⊎ GaveUp from.edge.polled edge.polled at }
    ensures gives { broken.old ≡ false → OnOk result
        (HearsOut at (bytes_of streams.old) (place_if broken.new at) (bytes_of streams.new)) }
    ensures due { IfErr result (λ cause. HasDue core.new.switch cause) }
{
    while hear_one(core, streams, notice, at, broken)? {}
    Ok(())
}

/// Takes the step of the next message: false where that was all that there is to hear.
fn hear_one<N: Notice<Journal<Step>>>(
    core: &mut Core,
    streams: &mut Streams,
    notice: &mut N,
    at: Place,
    broken: &mut bool,
) -> Result<bool, StepRefused>
    ensures on { (from : Beginning) (edge : EdgeState) (text : Bytes)
        → ServesOn from edge (N.noted notice.old) core.old streams.old at text
        → IfOk result
        (λ more. ServesMore from edge (N.noted notice.new) core.new streams.new at text more) }
    ensures err { (from : Beginning) (edge : EdgeState) (text : Bytes)
        → ServesOn from edge (N.noted notice.old) core.old streams.old at text
        → OnErr result (Ended from edge (N.noted notice.new) core.new.switch) }
    ensures gave { (from : Beginning) (edge : EdgeState) (text : Bytes)
        → ServesOn from edge (N.noted notice.old) core.old streams.old at text
        → broken.new ≡ true → (broken.old ≡ true) ⊎ GaveUp from.edge.polled edge.polled at }
    ensures gives { broken.old ≡ false → IfOk result
        (λ more. HearsOne at (bytes_of streams.old) broken.new (bytes_of streams.new) more) }
    ensures due { IfErr result (λ cause. HasDue core.new.switch cause) }
    ensures less { result ≡ Ok true
        → length (bytes_of streams.new at) < length (bytes_of streams.old at) }
{
    match streams.next(at) {
        Heard::Message(message) => take_message(core, notice, at, message),
        Heard::NotYet => Ok(false),
        Heard::Bad(bad) => {
            *broken = true;
            break_off(core, streams, notice, at, bad)
        }
        Heard::Long => {
            *broken = true;
            end_long(core, streams, notice, at)
        }
        Heard::NoMemory => Err(StepRefused::NoMemory),
    }
}

/// Takes a message, behind which there may be more to hear.
fn take_message<N: Notice<Journal<Step>>>(
    core: &mut Core,
    notice: &mut N,
    at: Place,
    message: Message,
) -> Result<bool, StepRefused>
    requires { HasVia message }
    ensures more { IfOk result (λ more. more ≡ true) }
    ensures ok { OnOk result
        (Took (Step.In at message) false core.old core.new (N.noted notice.old)
        (N.noted notice.new)) }
    ensures err { OnErr result
        (Stopped (Step.In at message) false core.old core.new (N.noted notice.old)
        (N.noted notice.new)) }
    ensures due { IfErr result (λ cause. HasDue core.new.switch cause) }
{
    match core.arrive(notice, at, message) {
        Ok(()) => Ok(true),
        Err(cause) => Err(cause),
    }
}

/// A text is no message: the place is lost, and nothing behind it is heard.
fn break_off<N: Notice<Journal<Step>>>(
    core: &mut Core,
    streams: &mut Streams,
    notice: &mut N,
    at: Place,
    bad: Bad,
) -> Result<bool, StepRefused>
    ensures more { IfOk result (λ more. more ≡ false) }
    ensures kept { IsKept (bytes_of streams.old) at [] (bytes_of streams.new) }
    ensures ok { OnOk result
        (BrokeOff at bad core.old core.new (N.noted notice.old) (N.noted notice.new)) }
    ensures err { OnErr result
        (BrokeUpto at bad core.old core.new (N.noted notice.old) (N.noted notice.new)) }
    ensures due { IfErr result (λ cause. HasDue core.new.switch cause) }
{
    streams.drop_of(at);
    match core.hear_bad(notice, at, bad) {
        Ok(()) => match core.lose(notice, at) {
            Ok(()) => Ok(false),
            Err(cause) => Err(cause),
        },
        Err(cause) => Err(cause),
    }
}

/// A text is too long: the place is lost, and nothing behind it is heard.
fn end_long<N: Notice<Journal<Step>>>(
    core: &mut Core,
    streams: &mut Streams,
    notice: &mut N,
    at: Place,
) -> Result<bool, StepRefused>
    ensures more { IfOk result (λ more. more ≡ false) }
    ensures kept { IsKept (bytes_of streams.old) at [] (bytes_of streams.new) }
    ensures ok { OnOk result
        (Took (Step.Lost at) false core.old core.new (N.noted notice.old) (N.noted notice.new)) }
    ensures err { OnErr result
        (Stopped (Step.Lost at) false core.old core.new (N.noted notice.old) (N.noted notice.new)) }
    ensures due { IfErr result (λ cause. HasDue core.new.switch cause) }
{
    match lose(core, streams, notice, at) {
        Ok(()) => Ok(false),
        Err(cause) => Err(cause),
    }
}

/// A place is lost, and its stream.
pub fn lose<N: Notice<Journal<Step>>>(
    core: &mut Core,
    streams: &mut Streams,
    notice: &mut N,
    at: Place,
) -> Result<(), StepRefused>
    ensures kept { IsKept (bytes_of streams.old) at [] (bytes_of streams.new) }
    ensures ok { OnOk result
        (Took (Step.Lost at) false core.old core.new (N.noted notice.old) (N.noted notice.new)) }
    ensures err { OnErr result
        (Stopped (Step.Lost at) false core.old core.new (N.noted notice.old) (N.noted notice.new)) }
    ensures due { IfErr result (λ cause. HasDue core.new.switch cause) }
{
    streams.drop_of(at);
    core.lose(notice, at)
}
