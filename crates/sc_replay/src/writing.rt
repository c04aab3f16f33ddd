//! Writing what a run sent, and its last line.

ghost use Rattle.std.specs.Prelude.{◌≡◌, ◌≤◌, [], Err, OnOk, OnErr};
ghost use Rattle.sc_edge.specs.Faults.{Rose};
ghost use Rattle.sc_edge.specs.Taking.{Takes, TakesPart};
ghost use Rattle.sc_model.specs.Records.{end_text, record_text, records};
ghost use Rattle.sc_hosts.specs.Histories.{as_session};
ghost use Rattle.sc_runs.specs.Outputs.{output};
ghost use Rattle.sc_follow.specs.Moving.{IsUntaken};

use sc_edge::{Sink, put_all};
use sc_script::{write_end, write_sent};
use sc_switch::Switch;
use sc_value::{Discard, Sent, Text};
use std::alloc::Global;

/// Why the output isn't whole.
#[derive(Clone, Copy, Debug, PartialEq, Eq)]
pub enum WriteRefused {
    /// Want of memory.
    NoMemory,
    /// The sink failed.
    Failed,
}

/// Puts the whole output of a switch: the records of all that its journal sends, and the last line.
///
/// # Errors
///
/// `Failed` only where the sink counted a fault, and `NoMemory`; the sink then took a part from the
/// front of the output.
pub fn put_output<K: Sink>(
    alloc: Global,
    switch: &mut Switch,
    out: &mut K,
) -> Result<(), WriteRefused>
    requires epoch { switch.old.epoch ≡ 0 }
    requires began { switch.old.began ≡ 0 }
    requires untaken { IsUntaken switch.old }
    ensures later { K.faults out.old ≤ K.faults out.new }
    ensures same { switch.new ≡ record switch.old { left = switch.new.left } }
    ensures ok { OnOk result
        (Takes (K.took out.old) (K.took out.new)
        (output as_session switch.old.setup switch.old.journal)) }
    ensures failed { result ≡ Err WriteRefused.Failed → Rose (K.faults out.old) (K.faults out.new) }
    ensures part { OnErr result
        (TakesPart (K.took out.old) (K.took out.new)
        (output as_session switch.old.setup switch.old.journal)) }
{
    let steps = switch.journal().len();
    let sent = switch.untaken();
    let live = switch.live();
    put_sent(alloc, switch, out)?;
    put_end(alloc, steps, sent, live, out)
}

/// Takes all that the switch sent and puts the record of each message into the sink, one after
/// another.
///
/// # Errors
///
/// `Failed` only where the sink counted a fault, and `NoMemory`; the sink then took a part from the
/// front of the records.
pub fn put_sent<K: Sink>(
    alloc: Global,
    switch: &mut Switch,
    out: &mut K,
) -> Result<(), WriteRefused>
    ensures later { K.faults out.old ≤ K.faults out.new }
    ensures same { switch.new ≡ record switch.old { left = switch.new.left } }
    ensures ok { OnOk result
        ((switch.new.left ≡ [])
        × Takes (K.took out.old) (K.took out.new) (records switch.old.left)) }
    ensures failed { result ≡ Err WriteRefused.Failed → Rose (K.faults out.old) (K.faults out.new) }
    ensures part { OnErr result
        (TakesPart (K.took out.old) (K.took out.new) (records switch.old.left)) }
{
    while switch.untaken() > 0 {
        let Some(sent) = switch.take_sent() else {
            return Ok(());
        };
        let put = put_one(alloc, &sent, out);
        sent.discard();
        put?;
    }
    Ok(())
}

/// Puts the record of a message that was sent.
fn put_one<K: Sink>(alloc: Global, sent: &Sent, out: &mut K) -> Result<(), WriteRefused>
    ensures later { K.faults out.old ≤ K.faults out.new }
    ensures ok { OnOk result (Takes (K.took out.old) (K.took out.new) (record_text sent.now)) }
    ensures failed { result ≡ Err WriteRefused.Failed → Rose (K.faults out.old) (K.faults out.new) }
    ensures part { OnErr result
        (TakesPart (K.took out.old) (K.took out.new) (record_text sent.now)) }
{
    let mut text = Text::new(alloc);
    match write_sent(alloc, sent, &mut text) {
        Ok(()) => put_text(&text, out),
        Err(_) => Err(WriteRefused::NoMemory),
    }
}

/// Puts the last line: how many steps, sent messages and live sessions there are.
///
/// # Errors
///
/// `Failed` only where the sink counted a fault, and `NoMemory`; the sink then took a part from the
/// front of the line.
pub fn put_end<K: Sink>(
    alloc: Global,
    steps: u64,
    sent: u64,
    live: u64,
    out: &mut K,
) -> Result<(), WriteRefused>
    ensures later { K.faults out.old ≤ K.faults out.new }
    ensures ok { OnOk result (Takes (K.took out.old) (K.took out.new) (end_text steps sent live)) }
    ensures failed { result ≡ Err WriteRefused.Failed → Rose (K.faults out.old) (K.faults out.new) }
    ensures part { OnErr result
        (TakesPart (K.took out.old) (K.took out.new) (end_text steps sent live)) }
{
    let mut text = Text::new(alloc);
    match write_end(alloc, steps, sent, live, &mut text) {
        Ok(()) => put_text(&text, out),
        Err(_) => Err(WriteRefused::NoMemory),
    }
}

/// Puts all bytes of a text.
fn put_text<K: Sink>(text: &Text, out: &mut K) -> Result<(), WriteRefused>
    ensures later { K.faults out.old ≤ K.faults out.new }
    ensures ok { OnOk result (Takes (K.took out.old) (K.took out.new) text.now) }
    ensures failed { OnErr result (Rose (K.faults out.old) (K.faults out.new)) }
    ensures part { OnErr result (TakesPart (K.took out.old) (K.took out.new) text.now) }
{
    match put_all(out, text.as_bytes()) {
        Ok(()) => Ok(()),
        Err(_) => Err(WriteRefused::Failed),
    }
}
