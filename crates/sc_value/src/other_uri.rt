//! URIs of other schemes than `sip` (RFC 3261 section 25.1: absoluteURI).

ghost use Rattle.std.specs.Prelude.{◌≡◌, IfOk};
ghost use Rattle.sc_tokens.specs.UriTokens.{IsOtherSpelled};

use crate::{CloneIn, NoMemory, Same, Text};
use std::alloc::Global;
use std::marker::Model;

/// The text of a URI of another scheme than `sip`. A contract sees its bytes.
#[derive(Drop)]
pub struct OtherUri {
    text: Text,
}

impl Model for OtherUri {
    ghost use Rattle.std.specs.Prelude.{List, ℕ};
    ghost use Rattle.sc_tokens.specs.UriTokens.{IsOtherSpelled};

    ghost Value = { List ℕ };

    ghost view = { λ o. o.text };

    ghost invariant = { λ o. IsOtherSpelled o.text o.text };
}

impl OtherUri {
    /// The URI of these bytes: none that a URI may not hold, and a scheme before the first colon.
    pub fn from_slice(alloc: Global, bytes: &[u8]) -> Result<OtherUri, NoMemory>
        requires { IsOtherSpelled bytes.now bytes.now }
        ensures { IfOk result (λ o. o ≡ bytes.now) }
    {
        let text = Text::from_slice(alloc, bytes)?;
        Ok(OtherUri { text })
    }

    /// The bytes in order.
    pub fn as_bytes(&self) -> &[u8]
        ensures { result.now ≡ self.now }
    {
        self.text.as_bytes()
    }

    /// The text.
    pub fn as_text(&self) -> &Text
        ensures { result.now ≡ self.now }
    {
        &self.text
    }

    /// It is open, with a scheme that isn't `sip`.
    pub fn known(&self)
        ensures { IsOtherSpelled self.now self.now }
    {
        let _ = &self.text;
    }
}

impl CloneIn for OtherUri {
    fn clone_in(&self, alloc: Global) -> Result<OtherUri, NoMemory> {
        let text = self.text.clone_in(alloc)?;
        Ok(OtherUri { text })
    }
}

impl Same for OtherUri {
    fn same(&self, other: &OtherUri) -> bool {
        self.text.same(&other.text)
    }
}
