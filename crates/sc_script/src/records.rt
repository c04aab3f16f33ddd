//! The records of a run.

ghost use Rattle.std.specs.Prelude.{◌≡◌, ◌++◌, [], ◌∷◌, decimal, length, IfOk, OnErr, OnOk};
ghost use Rattle.sc_model.specs.Records.{end_text, end_word, out_word, record_line, record_text};

use sc_message_text::bytes_of;
use sc_names::put_place;
use sc_value::{NoMemory, Place, Sent, Text, write_u64};
use std::alloc::Global;

/// Puts the record of a message that was sent at the end of a text: the line `out PLACE N`, where N
/// is the length of the message in bytes, then the message and a line feed. PLACE is `cN` for the
/// connection N that a peer opened, and `a.b.c.d:port` for an address. The one error is want of
/// memory, and then the text is as before.
pub fn write_sent(alloc: Global, sent: &Sent, out: &mut Text) -> Result<(), NoMemory>
    ensures ok { OnOk result (out.new ≡ out.old ++ record_text sent.now) }
    ensures err { OnErr result (out.new ≡ out.old) }
{
    let record = record_of(alloc, sent)?;
    put_whole(alloc, record, out)
}

// Puts these bytes at the end of a text; they are moved where nothing stands before them.
fn put_whole(alloc: Global, bytes: Vec<u8>, out: &mut Text) -> Result<(), NoMemory>
    ensures ok { OnOk result (out.new ≡ out.old ++ bytes.items) }
    ensures err { OnErr result (out.new ≡ out.old) }
{
    if out.is_empty() {
        *out = Text::from_vec(alloc, bytes)?;
        return Ok(());
    }
    out.append(bytes.as_slice())
}

// The bytes of the record of a message that was sent.
#[tactic(auto, unfolding(sc_model::specs::Records::record_text))]
fn record_of(alloc: Global, sent: &Sent) -> Result<Vec<u8>, NoMemory>
    ensures { IfOk result (λ whole. whole.items ≡ record_text sent.now) }
{
    let bytes = bytes_of(alloc, &sent.message)?;
    record_with(alloc, sent.place, bytes.as_slice())
}

// How many bytes a record has in most calls: a list of them is made without growing.
const ROOM: usize = 640;

// The record of a message with these bytes.
fn record_with(alloc: Global, place: Place, bytes: &[u8]) -> Result<Vec<u8>, NoMemory>
    ensures { IfOk result
        (λ whole.
        whole.items ≡ record_line place (length bytes.now) ++ bytes.now ++ 10 ∷ []) }
{
    let mut line = Text::new(alloc);
    put_record_line(place, bytes.len() as u64, &mut line)?;
    let mut whole = Vec::with_capacity(alloc, ROOM)?;
    whole.extend_from_slice(line.as_bytes())?;
    whole.extend_from_slice(bytes)?;
    whole.push(b'\n')?;
    Ok(whole)
}

#[tactic(auto, unfolding(sc_model::specs::Records::record_line))]
fn put_record_line(place: Place, size: u64, out: &mut Text) -> Result<(), NoMemory>
    ensures { OnOk result (out.new ≡ out.old ++ record_line place size) }
{
    put_out_word(out)?;
    put_place(place, out)?;
    out.append(b" ")?;
    write_u64(size, out)?;
    out.append(b"\n")
}

#[tactic(auto, unfolding(sc_model::specs::Records::out_word))]
fn put_out_word(out: &mut Text) -> Result<(), NoMemory>
    ensures { OnOk result (out.new ≡ out.old ++ out_word) }
{
    out.append(b"out ")
}

/// Puts the last line of a run at the end of a text: `end STEPS SENT LIVE`, the number of steps,
/// of messages that were sent and of application sessions that live, and a line feed. The one error
/// is want of memory, and then the text is as before.
pub fn write_end(
    alloc: Global,
    steps: u64,
    sent: u64,
    live: u64,
    out: &mut Text,
) -> Result<(), NoMemory>
    ensures ok { OnOk result (out.new ≡ out.old ++ end_text steps sent live) }
    ensures err { OnErr result (out.new ≡ out.old) }
{
    let line = end_of(alloc, steps, sent, live)?;
    out.append(line.as_bytes())
}

// The last line, in a text of its own.
#[tactic(auto, unfolding(sc_model::specs::Records::end_text))]
fn end_of(alloc: Global, steps: u64, sent: u64, live: u64) -> Result<Text, NoMemory>
    ensures { IfOk result (λ line. line ≡ end_text steps sent live) }
{
    let mut line = Text::new(alloc);
    put_end_word(&mut line)?;
    put_counts(steps, sent, &mut line)?;
    line.append(b" ")?;
    write_u64(live, &mut line)?;
    line.append(b"\n")?;
    Ok(line)
}

// `STEPS SENT`
fn put_counts(steps: u64, sent: u64, out: &mut Text) -> Result<(), NoMemory>
    ensures { OnOk result (out.new ≡ out.old ++ (decimal steps ++ 32 ∷ [] ++ decimal sent)) }
{
    write_u64(steps, out)?;
    out.append(b" ")?;
    write_u64(sent, out)
}

#[tactic(auto, unfolding(sc_model::specs::Records::end_word))]
fn put_end_word(out: &mut Text) -> Result<(), NoMemory>
    ensures { OnOk result (out.new ≡ out.old ++ end_word) }
{
    out.append(b"end ")
}
