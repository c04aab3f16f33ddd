//! Tokens as values (RFC 3261 section 25.1).

ghost use Rattle.std.specs.Prelude.{◌≡◌, ◌==◌, true, length, IfOk};
ghost use Rattle.sc_tokens.specs.Tokens.{is_token};

use crate::{CloneIn, NoMemory, Same, Text};
use std::alloc::Global;
use std::marker::Model;

/// A token: a method, say. It has one or more letters, digits and bytes of ``-.!%*_+`'~``. A
/// contract sees its bytes.
#[derive(Drop)]
pub struct Token {
    text: Text,
}

impl Model for Token {
    ghost use Rattle.std.specs.Prelude.{◌≡◌, List, ℕ, true};
    ghost use Rattle.sc_tokens.specs.Tokens.{is_token};

    ghost Value = { List ℕ };

    ghost view = { λ t. t.text };

    ghost invariant = { λ t. is_token t.text ≡ true };
}

impl Token {
    /// The token of these bytes.
    pub fn from_slice(alloc: Global, bytes: &[u8]) -> Result<Token, NoMemory>
        requires { is_token bytes.now ≡ true }
        ensures { IfOk result (λ t. t ≡ bytes.now) }
    {
        let text = Text::from_slice(alloc, bytes)?;
        Ok(Token { text })
    }

    /// The token of this text, moved and not copied.
    pub fn from_text(text: Text) -> Token
        requires { is_token text ≡ true }
        ensures { result ≡ text }
    {
        Token { text }
    }

    /// The bytes in order.
    pub fn as_bytes(&self) -> &[u8]
        ensures { result.now ≡ self.now }
    {
        self.text.as_bytes()
    }

    /// The text.
    pub fn as_text(&self) -> &Text
        ensures { result.now ≡ self.now }
    {
        &self.text
    }

    /// How many bytes it has.
    pub fn len(&self) -> usize
        ensures { result ≡ length self.now }
    {
        self.text.len()
    }

    /// Whether it has no byte.
    pub fn is_empty(&self) -> bool
        ensures { result ≡ (length self.now == 0) }
    {
        self.text.is_empty()
    }

    /// It is a token.
    pub fn known(&self)
        ensures { is_token self.now ≡ true }
    {
        let _ = &self.text;
    }
}

impl CloneIn for Token {
    fn clone_in(&self, alloc: Global) -> Result<Token, NoMemory> {
        let text = self.text.clone_in(alloc)?;
        Ok(Token { text })
    }
}

impl Same for Token {
    fn same(&self, other: &Token) -> bool {
        self.text.same(&other.text)
    }
}
