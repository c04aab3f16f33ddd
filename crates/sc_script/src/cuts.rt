//! Texts cut at a sign.

ghost use Rattle.std.specs.Prelude.{◌≡◌, ◌+◌, ◌∷◌, IfSome, length};
ghost use Rattle.std.specs.Option.{option_copied};
ghost use Rattle.sc_tokens.specs.Cuts.{before, after, pieces};
ghost use Rattle.sc_script.specs.Reading.{more_pieces};

/// The first piece of a text between such signs, and what stands behind it, where there is more.
#[tactic(auto, using(crate::proofs::Cutting::cut_at))]
pub fn cut(text: &[u8], sign: u8) -> (&[u8], Option<&[u8]>)
    ensures front { result.0.now ≡ before sign text.now }
    ensures rest { option_copied result.1 ≡ after sign text.now }
    ensures pieces { pieces sign text.now
        ≡ result.0.now ∷ more_pieces sign (option_copied result.1) }
    ensures less { IfSome result.1
        (λ rest. length result.0.now + length rest.now + 1 ≡ length text.now) }
{
    sc_ascii::cut(text, sign)
}
