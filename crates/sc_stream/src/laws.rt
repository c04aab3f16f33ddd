ghost use Rattle.std.specs.Prelude.{◌≡◌, ◌++◌, ◌≤◌, false, length};
ghost use Rattle.sc_tokens.specs.Bytes.{Bytes};
ghost use Rattle.sc_syntax.specs.Fronts.{front_of};
ghost use Rattle.sc_stream.specs.Frames.{front_behind, is_open, len_of};

/// What a stream's bytes begin with stays so whatever comes behind, once it is a message, a bad
/// head or too long; and a message that is there is there whole. The contract is the law, and the
/// call does nothing.
pub fn fronts_stay()
    ensures front { (text more : Bytes) → is_open (front_of text) ≡ false
        → front_of (text ++ more) ≡ front_of text }
    ensures behind { (text more : Bytes) → is_open (front_behind text) ≡ false
        → front_behind (text ++ more) ≡ front_behind text }
    ensures whole { (text : Bytes) → len_of (front_of text) ≤ length text }
{}
