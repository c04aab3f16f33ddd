//! Values of headers (RFC 3261 sections 7.3.1 and 25.1).

ghost use Rattle.std.specs.Prelude.{◌≡◌, ◌==◌, true, length, IfOk};
ghost use Rattle.sc_tokens.specs.Tokens.{is_value};

use crate::{CloneIn, NoMemory, Same, Text};
use std::alloc::Global;
use std::marker::Model;

/// The value of a header: one line, without NUL, and no blank at an end. A contract sees its bytes.
#[derive(Drop)]
pub struct HeaderValue {
    text: Text,
}

impl Model for HeaderValue {
    ghost use Rattle.std.specs.Prelude.{◌≡◌, List, ℕ, true};
    ghost use Rattle.sc_tokens.specs.Tokens.{is_value};

    ghost Value = { List ℕ };

    ghost view = { λ t. t.text };

    ghost invariant = { λ t. is_value t.text ≡ true };
}

impl HeaderValue {
    /// The value of these bytes.
    pub fn from_slice(alloc: Global, bytes: &[u8]) -> Result<HeaderValue, NoMemory>
        requires { is_value bytes.now ≡ true }
        ensures { IfOk result (λ t. t ≡ bytes.now) }
    {
        let text = Text::from_slice(alloc, bytes)?;
        Ok(HeaderValue { text })
    }

    /// The value of this text, moved and not copied.
    pub fn from_text(text: Text) -> HeaderValue
        requires { is_value text ≡ true }
        ensures { result ≡ text }
    {
        HeaderValue { text }
    }

    /// The bytes in order.
    pub fn as_bytes(&self) -> &[u8]
        ensures { result.now ≡ self.now }
    {
        self.text.as_bytes()
    }

    /// The text.
    pub fn as_text(&self) -> &Text
        ensures { result.now ≡ self.now }
    {
        &self.text
    }

    /// How many bytes it has.
    pub fn len(&self) -> usize
        ensures { result ≡ length self.now }
    {
        self.text.len()
    }

    /// Whether it has no byte.
    pub fn is_empty(&self) -> bool
        ensures { result ≡ (length self.now == 0) }
    {
        self.text.is_empty()
    }

    /// It can be the value of a header.
    pub fn known(&self)
        ensures { is_value self.now ≡ true }
    {
        let _ = &self.text;
    }
}

impl CloneIn for HeaderValue {
    fn clone_in(&self, alloc: Global) -> Result<HeaderValue, NoMemory> {
        let text = self.text.clone_in(alloc)?;
        Ok(HeaderValue { text })
    }
}

impl Same for HeaderValue {
    fn same(&self, other: &HeaderValue) -> bool {
        self.text.same(&other.text)
    }
}
