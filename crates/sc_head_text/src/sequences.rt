//! Values that begin with a number (RFC 3261 sections 20.14, 20.16 and 20.22).

ghost use Rattle.std.specs.Prelude.{◌≡◌, ◌^◌, ◌<◌, IfOk};
ghost use Rattle.sc_tokens.specs.Numbers.{number_below, number_of};
ghost use Rattle.sc_syntax.specs.Sequences.{cseq_in, cseq_of, hops_of};
ghost use Rattle.sc_syntax.specs.SpelledSequences.{IsCSeqSpelled};
ghost use Rattle.sc_head_text.specs.Answers.{Gives, GivesSpelled};
ghost use Rattle.sc_value.specs.SequenceValues.{IsCSeq};

use crate::Unread;
use crate::words::split_word;
use sc_ascii::{read_u64, trim};
use sc_value::{CSeq, Token, is_token};
use std::alloc::Global;

/// The number and the method of a CSeq: a number from 0 to 2,147,483,647, leading zeros allowed,
/// blanks, and a token (RFC 3261 section 20.16). `Fault` exactly where the value is another;
/// `NoMemory` says nothing of it.
#[tactic(auto, unfolding(sc_syntax::specs::Sequences::cseq_of))]
pub fn read_cseq(alloc: Global, b: &[u8]) -> Result<CSeq, Unread>
    ensures exact { Gives result (cseq_of b.now) }
    ensures spelled { GivesSpelled result (λ cseq. IsCSeqSpelled b.now cseq) }
    ensures kept { IfOk result (λ cseq. IsCSeq cseq) }
{
    read_trimmed(alloc, trim(b))
}

#[tactic(auto, unfolding(sc_syntax::specs::Sequences::cseq_in))]
fn read_trimmed(alloc: Global, text: &[u8]) -> Result<CSeq, Unread>
    ensures { Gives result (cseq_in text.now) }
{
    let (digits, method) = split_word(text);
    if !is_token(method) {
        return Err(Unread::Fault);
    }
    match read_number(digits) {
        Some(number) => {
            let method = Token::from_slice(alloc, method)?;
            Ok(CSeq { number, method })
        }
        None => Err(Unread::Fault),
    }
}

#[tactic(auto, using(sc_syntax::proofs::NumberLaws::below_none, sc_syntax::proofs::NumberLaws::below_small, sc_syntax::proofs::NumberLaws::below_large))]
fn read_number(text: &[u8]) -> Option<u32>
    ensures { result ≡ number_below (2 ^ 31) text.now }
{
    let number = read_u64(text)?;
    if number < 1 << 31 {
        Some(number as u32)
    } else {
        None
    }
}

/// The hops of a Max-Forwards, 0 to 255, leading zeros allowed (RFC 3261 section 20.22). The value
/// has no blanks round it. None exactly where it is another.
#[tactic(auto, unfolding(sc_syntax::specs::Sequences::hops_of), using(sc_syntax::proofs::NumberLaws::below_none, sc_syntax::proofs::NumberLaws::below_small, sc_syntax::proofs::NumberLaws::below_large))]
pub fn read_hops(b: &[u8]) -> Option<u8>
    ensures { result ≡ hops_of b.now }
{
    let number = read_u64(b)?;
    if number < 256 {
        Some(number as u8)
    } else {
        None
    }
}

/// The bytes of a Content-Length, below 2^64, leading zeros allowed (RFC 3261 section 20.14). The
/// value has no blanks round it. None exactly where it is another.
pub fn read_length(b: &[u8]) -> Option<u64>
    ensures { result ≡ number_of b.now }
{
    read_u64(b)
}
