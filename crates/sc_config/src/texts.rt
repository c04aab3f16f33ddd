//! The texts that keys can have.

ghost use Rattle.std.specs.Prelude.{◌≡◌, ◌==◌, not};
ghost use Rattle.std.specs.List.{list_all};
ghost use Rattle.std.specs.Char.{is_ascii_alphanumeric};
ghost use Rattle.sc_config.specs.KeyValues.{is_salt, is_quote_or_break, is_app_name, is_file_name};

/// Whether the text is 1 to 16 letters and digits.
#[tactic(auto, unfolding(crate::specs::KeyValues::is_salt))]
pub(crate) fn is_salt(text: &[u8]) -> bool
    ensures { result ≡ is_salt text.now }
{
    !text.is_empty() && text.len() <= 16 && has_letters_and_digits(text)
}

fn has_letters_and_digits(text: &[u8]) -> bool
    ensures { result ≡ list_all is_ascii_alphanumeric text.now }
{
    text.iter().all(|b| b.is_ascii_alphanumeric())
}

/// Whether an application can have this name: not empty, and without quote, CR and LF.
#[tactic(auto, unfolding(crate::specs::KeyValues::is_app_name))]
pub(crate) fn is_app_name(text: &[u8]) -> bool
    ensures { result ≡ is_app_name text.now }
{
    !text.is_empty() && is_unbroken(text)
}

fn is_unbroken(text: &[u8]) -> bool
    ensures { result ≡ list_all (λ b. not (is_quote_or_break b)) text.now }
{
    text.iter().all(|b| !is_quote_or_break(*b))
}

#[tactic(auto, unfolding(crate::specs::KeyValues::is_quote_or_break))]
fn is_quote_or_break(b: u8) -> bool
    ensures { result ≡ is_quote_or_break b }
{
    b == b'"' || b == b'\r' || b == b'\n'
}

/// Whether a file can have this name: 1 to 4,096 bytes, none of them 0.
#[tactic(auto, unfolding(crate::specs::KeyValues::is_file_name))]
pub(crate) fn is_file_name(text: &[u8]) -> bool
    ensures { result ≡ is_file_name text.now }
{
    !text.is_empty() && text.len() <= 4_096 && has_no_zero(text)
}

fn has_no_zero(text: &[u8]) -> bool
    ensures { result ≡ list_all (λ b. not (b == 0)) text.now }
{
    text.iter().all(|b| *b != 0)
}
