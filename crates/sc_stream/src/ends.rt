//! The end of a stream: an answer that stays the same whatever comes (RFC 3261 section 18.3).

ghost use Rattle.std.specs.Prelude.{◌≡◌, IfOk, IfErr};
ghost use Rattle.sc_tokens.specs.Bytes.{Bytes};
ghost use Rattle.sc_stream.specs.Hearing.{Hears};
ghost use Rattle.sc_stream.specs.Ends.{EndsWith, GoesOn, IsAgain, IsEnd};

use crate::streams::Heard;
use sc_terms::Bad;
use sc_value::{CloneIn, NoMemory};
use std::alloc::Global;

/// What a stream answers for ever.
#[derive(Drop)]
pub enum Ended {
    /// The stream goes on with a head that spells no message.
    Bad(Bad),
    /// The stream goes on with more than 65,535 bytes that are no message.
    Long,
}

/// What was heard, where the stream goes on behind it; its end, where it doesn't.
pub fn parted(heard: Heard) -> Result<Heard, Ended>
    ensures goes { IfOk result (λ same. (same ≡ heard) × GoesOn same) }
    ensures ends { IfErr result (λ ended. EndsWith heard ended) }
{
    match heard {
        Heard::Bad(bad) => Err(Ended::Bad(bad)),
        Heard::Long => Err(Ended::Long),
        Heard::Message(message) => Ok(Heard::Message(message)),
        Heard::NotYet => Ok(Heard::NotYet),
        Heard::NoMemory => Ok(Heard::NoMemory),
    }
}

/// The same answer again.
#[tactic(auto, using(crate::proofs::EndSteps::again_heard))]
pub fn again(alloc: Global, ended: &Ended) -> Heard
    ensures { (text : Bytes) → IsEnd ended.now text → Hears result text text }
{
    copy_of(alloc, ended)
}

fn copy_of(alloc: Global, ended: &Ended) -> Heard
    ensures { IsAgain result ended.now }
{
    match ended {
        Ended::Bad(bad) => match copy_of_bad(alloc, bad) {
            Ok(bad) => Heard::Bad(bad),
            Err(NoMemory) => Heard::NoMemory,
        },
        Ended::Long => Heard::Long,
    }
}

fn copy_of_bad(alloc: Global, bad: &Bad) -> Result<Bad, NoMemory>
    ensures { IfOk result (λ copy. copy ≡ bad.now) }
{
    let heads = bad.heads.clone_in(alloc)?;
    Ok(Bad {
        at: bad.at,
        kind: bad.kind,
        heads,
    })
}
