//! The headers of a text that is no message, from which it is answered (RFC 3261 section 8.2.6.2).

ghost use Rattle.std.specs.Prelude.{◌≡◌, ◌++◌, IfOk, OnOk};
ghost use Rattle.sc_grammar.specs.Written.{via_line};
ghost use Rattle.sc_recording.specs.StepTexts.{heads_or, heads_text, peers_text};

use crate::forms::{Form, put_items};
use sc_message_text::{
    call_id_name, from_name, put_address_line, put_cseq_line, put_line, put_via_line, to_name,
};
use sc_value::{Answerable, Boxed, NoMemory, Text, Via};
use std::alloc::Global;

/// The lines of the headers; no text where there are none.
#[tactic(auto, unfolding(crate::specs::StepTexts::heads_or))]
pub fn heads_text(alloc: Global, heads: &Option<Boxed<Answerable>>) -> Result<Text, NoMemory>
    ensures { IfOk result (λ text. text ≡ heads_or heads.now) }
{
    let mut text = Text::new(alloc);
    match heads {
        Some(heads) => put_heads(alloc, heads.get(), &mut text)?,
        None => {}
    }
    Ok(text)
}

#[tactic(auto, unfolding(crate::specs::StepTexts::heads_text))]
fn put_heads(alloc: Global, heads: &Answerable, out: &mut Text) -> Result<(), NoMemory>
    ensures { OnOk result (out.new ≡ out.old ++ heads_text heads.now) }
{
    put_items::<Via, ViaLine>(alloc, heads.via.as_slice(), out)?;
    put_peers(heads, out)
}

#[tactic(auto, unfolding(crate::specs::StepTexts::peers_text))]
fn put_peers(heads: &Answerable, out: &mut Text) -> Result<(), NoMemory>
    ensures { OnOk result (out.new ≡ out.old ++ peers_text heads.now) }
{
    put_address_line(from_name(), &heads.from, out)?;
    put_address_line(to_name(), &heads.to, out)?;
    put_line(call_id_name(), heads.call_id.as_bytes(), out)?;
    put_cseq_line(&heads.cseq, out)
}

/// The line of a Via.
struct ViaLine;

impl Form<Via> for ViaLine {
    ghost form = { via_line };

    fn put(_alloc: Global, item: &Via, out: &mut Text) -> Result<(), NoMemory> {
        put_via_line(item, out)
    }
}
