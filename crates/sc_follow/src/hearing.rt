//! The steps that the bytes of a place make (RFC 3261 section 18.3).

ghost use Rattle.std.specs.Prelude.{◌≡◌, ◌<◌, ◌∷◌, [], true, false, length, IfErr, IfOk, OnOk, OnErr};
ghost use Rattle.sc_terms.specs.declared.steps.Step.TheVariants as steps;
ghost use Rattle.sc_hosts.specs.Runs.{HasVia};
ghost use Rattle.sc_runs.specs.Following.{IsKept};
ghost use Rattle.sc_runs.specs.Hearing.{Hears};
ghost use Rattle.sc_streams.specs.Streaming.{bytes_of};
ghost use Rattle.sc_follow.specs.Moving.{IsUntaken, IsFree, IsCut, IsDone, IsStopped, TookStep, HearsUpto};
ghost use Rattle.sc_follow.specs.Hearing.{HeardOne, BadUpto};

use crate::stepping::{arrive, hear_bad, lost};
use sc_stream::Heard;
use sc_streams::Streams;
use sc_switch::{StepRefused, Switch};
use sc_terms::{Bad, Step};
use sc_value::{Message, Place};
use std::alloc::Global;

/// Takes the steps of all messages that are whole in what is kept of a place.
///
/// # Errors
///
/// `JournalFull` where the journal has no room for the step that is due, and `NoMemory`. The steps
/// before it stand.
pub fn hear_all(
    alloc: Global,
    switch: &mut Switch,
    streams: &mut Streams,
    place: Place,
) -> Result<(), StepRefused>
    requires untaken { IsUntaken switch.old }
    requires free { IsFree switch.old }
    ensures kept { IsKept (bytes_of streams.old) place (bytes_of streams.new place)
        (bytes_of streams.new) }
    ensures ok { OnOk result
        (IsDone
        (λ made. Hears place (bytes_of streams.old place) made (bytes_of streams.new place))
        switch.old switch.new) }
    ensures err { IfErr result
        (λ cause.
        IsCut (HearsUpto place (bytes_of streams.old place)) switch.old switch.new cause) }
{
    while hear(alloc, switch, streams, place)? {}
    Ok(())
}

/// Takes the step of the next message: false where that was all that there is to hear.
fn hear(
    alloc: Global,
    switch: &mut Switch,
    streams: &mut Streams,
    place: Place,
) -> Result<bool, StepRefused>
    requires untaken { IsUntaken switch.old }
    requires free { IsFree switch.old }
    ensures kept { IsKept (bytes_of streams.old) place (bytes_of streams.new place)
        (bytes_of streams.new) }
    ensures heard { IfOk result
        (λ more.
        HeardOne place (bytes_of streams.old place) (bytes_of streams.new place) switch.old
        switch.new more) }
    ensures err { IfErr result
        (λ cause.
        IsCut (HearsUpto place (bytes_of streams.old place)) switch.old switch.new cause) }
{
    match streams.next(place) {
        Heard::Message(message) => take_message(alloc, switch, place, message),
        Heard::NotYet => Ok(false),
        Heard::Bad(bad) => end_bad(alloc, switch, streams, place, bad),
        Heard::Long => end_long(alloc, switch, streams, place),
        Heard::NoMemory => Err(StepRefused::NoMemory),
    }
}

/// Takes a message, behind which there may be more to hear.
fn take_message(
    alloc: Global,
    switch: &mut Switch,
    place: Place,
    message: Message,
) -> Result<bool, StepRefused>
    requires via { HasVia message }
    requires untaken { IsUntaken switch.old }
    requires free { IsFree switch.old }
    ensures ok { IfOk result
        (λ more.
        (more ≡ true) × TookStep switch.old switch.new (Step.In place message)
        × (length switch.old.journal < switch.old.setup.config.journal_steps)) }
    ensures same { OnErr result (switch.new ≡ switch.old) }
    ensures stopped { IfErr result (λ cause. IsStopped switch.old (Step.In place message) cause) }
{
    match arrive(alloc, switch, place, message) {
        Ok(()) => Ok(true),
        Err(cause) => Err(cause),
    }
}

/// A text is no message, and nothing behind it is heard.
fn end_bad(
    alloc: Global,
    switch: &mut Switch,
    streams: &mut Streams,
    place: Place,
    bad: Bad,
) -> Result<bool, StepRefused>
    requires untaken { IsUntaken switch.old }
    requires free { IsFree switch.old }
    ensures kept { IsKept (bytes_of streams.old) place [] (bytes_of streams.new) }
    ensures ok { IfOk result
        (λ more.
        (more ≡ false)
        × IsDone (λ made. made ≡ Step.Bad place bad ∷ Step.Lost place ∷ []) switch.old
        switch.new) }
    ensures err { IfErr result (λ cause. IsCut (BadUpto place bad) switch.old switch.new cause) }
{
    match break_off(alloc, switch, streams, place, bad) {
        Ok(()) => Ok(false),
        Err(cause) => Err(cause),
    }
}

/// A text is too long: the place is lost, and nothing behind it is heard.
fn end_long(
    alloc: Global,
    switch: &mut Switch,
    streams: &mut Streams,
    place: Place,
) -> Result<bool, StepRefused>
    requires untaken { IsUntaken switch.old }
    requires free { IsFree switch.old }
    ensures kept { IsKept (bytes_of streams.old) place [] (bytes_of streams.new) }
    ensures ok { IfOk result
        (λ more. (more ≡ false) × TookStep switch.old switch.new (Step.Lost place)) }
    ensures same { OnErr result (switch.new ≡ switch.old) }
    ensures stopped { IfErr result (λ cause. IsStopped switch.old (Step.Lost place) cause) }
{
    streams.drop_of(place);
    match lost(alloc, switch, place) {
        Ok(()) => Ok(false),
        Err(cause) => Err(cause),
    }
}

/// A text came that is no message: the place is lost, and its stream.
fn break_off(
    alloc: Global,
    switch: &mut Switch,
    streams: &mut Streams,
    place: Place,
    bad: Bad,
) -> Result<(), StepRefused>
    requires untaken { IsUntaken switch.old }
    requires free { IsFree switch.old }
    ensures kept { IsKept (bytes_of streams.old) place [] (bytes_of streams.new) }
    ensures ok { OnOk result
        (IsDone (λ made. made ≡ Step.Bad place bad ∷ Step.Lost place ∷ []) switch.old switch.new) }
    ensures err { IfErr result (λ cause. IsCut (BadUpto place bad) switch.old switch.new cause) }
{
    streams.drop_of(place);
    match hear_bad(alloc, switch, place, bad) {
        Ok(()) => lost(alloc, switch, place),
        Err(cause) => Err(cause),
    }
}
