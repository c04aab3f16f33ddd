//! The lines of the script.

ghost use Rattle.std.specs.Prelude.{◌≡◌, ◌++◌, OnOk};
ghost use Rattle.sc_model.specs.Generated.{arrives, arriving_text, end_line, in_word, run_line, tick_line, tick_word};
ghost use Rattle.sc_value.specs.declared.message.Message.{Message};

use sc_message_text::text_of;
use sc_value::{Discard, Message, NoMemory, Request, Shared, Text, write_u64};
use std::alloc::Global;

/// Puts the message as one that comes on connection 1 at the end of the text, and `run`.
#[tactic(auto, unfolding(sc_model::specs::Generated::arrives))]
pub fn put_arrival(alloc: Global, request: Request, out: &mut Text) -> Result<(), NoMemory>
    ensures { OnOk result (out.new ≡ out.old ++ arrives request) }
{
    let message = Message::Request(Shared::new(alloc, request)?);
    let text = text_of(alloc, &message);
    message.discard();
    let text = text?;
    put_arriving(text.as_bytes(), out)?;
    put_run(out)
}

#[tactic(auto, unfolding(sc_model::specs::Generated::arriving_text))]
fn put_arriving(text: &[u8], out: &mut Text) -> Result<(), NoMemory>
    ensures { OnOk result (out.new ≡ out.old ++ arriving_text text.now) }
{
    put_in_word(out)?;
    write_u64(text.len() as u64, out)?;
    out.append(b"\n")?;
    out.append(text)?;
    out.append(b"\n")
}

#[tactic(auto, unfolding(sc_model::specs::Generated::in_word))]
fn put_in_word(out: &mut Text) -> Result<(), NoMemory>
    ensures { OnOk result (out.new ≡ out.old ++ in_word) }
{
    out.append(b"in c1 ")
}

/// Puts `run` at the end of the text.
#[tactic(auto, unfolding(sc_model::specs::Generated::run_line))]
pub fn put_run(out: &mut Text) -> Result<(), NoMemory>
    ensures { OnOk result (out.new ≡ out.old ++ run_line) }
{
    out.append(b"run\n")
}

/// Puts `end` at the end of the text.
#[tactic(auto, unfolding(sc_model::specs::Generated::end_line))]
pub fn put_end(out: &mut Text) -> Result<(), NoMemory>
    ensures { OnOk result (out.new ≡ out.old ++ end_line) }
{
    out.append(b"end\n")
}

/// Puts `tick` with this moment at the end of the text.
#[tactic(auto, unfolding(sc_model::specs::Generated::tick_line))]
pub fn put_tick(now: u64, out: &mut Text) -> Result<(), NoMemory>
    ensures { OnOk result (out.new ≡ out.old ++ tick_line now) }
{
    put_tick_word(out)?;
    write_u64(now, out)?;
    out.append(b"\n")
}

#[tactic(auto, unfolding(sc_model::specs::Generated::tick_word))]
fn put_tick_word(out: &mut Text) -> Result<(), NoMemory>
    ensures { OnOk result (out.new ≡ out.old ++ tick_word) }
{
    out.append(b"tick ")
}
