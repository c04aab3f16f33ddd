//! Reason phrases (RFC 3261 section 7.2).

ghost use Rattle.std.specs.Prelude.{◌≡◌, ◌==◌, true, length, IfOk};
ghost use Rattle.sc_tokens.specs.Tokens.{is_one_line};

use crate::{CloneIn, NoMemory, Same, Text};
use std::alloc::Global;
use std::marker::Model;

/// The reason phrase of a response: one line, without NUL. A contract sees its bytes.
#[derive(Drop)]
pub struct Reason {
    text: Text,
}

impl Model for Reason {
    ghost use Rattle.std.specs.Prelude.{◌≡◌, List, ℕ, true};
    ghost use Rattle.sc_tokens.specs.Tokens.{is_one_line};

    ghost Value = { List ℕ };

    ghost view = { λ t. t.text };

    ghost invariant = { λ t. is_one_line t.text ≡ true };
}

impl Reason {
    /// The phrase of these bytes.
    pub fn from_slice(alloc: Global, bytes: &[u8]) -> Result<Reason, NoMemory>
        requires { is_one_line bytes.now ≡ true }
        ensures { IfOk result (λ t. t ≡ bytes.now) }
    {
        let text = Text::from_slice(alloc, bytes)?;
        Ok(Reason { text })
    }

    /// The phrase of this text, moved and not copied.
    pub fn from_text(text: Text) -> Reason
        requires { is_one_line text ≡ true }
        ensures { result ≡ text }
    {
        Reason { text }
    }

    /// The bytes in order.
    pub fn as_bytes(&self) -> &[u8]
        ensures { result.now ≡ self.now }
    {
        self.text.as_bytes()
    }

    /// The text.
    pub fn as_text(&self) -> &Text
        ensures { result.now ≡ self.now }
    {
        &self.text
    }

    /// How many bytes it has.
    pub fn len(&self) -> usize
        ensures { result ≡ length self.now }
    {
        self.text.len()
    }

    /// Whether it has no byte.
    pub fn is_empty(&self) -> bool
        ensures { result ≡ (length self.now == 0) }
    {
        self.text.is_empty()
    }

    /// It is one line.
    pub fn known(&self)
        ensures { is_one_line self.now ≡ true }
    {
        let _ = &self.text;
    }
}

impl CloneIn for Reason {
    fn clone_in(&self, alloc: Global) -> Result<Reason, NoMemory> {
        let text = self.text.clone_in(alloc)?;
        Ok(Reason { text })
    }
}

impl Same for Reason {
    fn same(&self, other: &Reason) -> bool {
        self.text.same(&other.text)
    }
}
