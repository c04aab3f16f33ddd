//! The classes of response codes (RFC 3261 section 7.2).

ghost use Rattle.std.specs.Prelude.{◌≡◌};
ghost use Rattle.sc_model.specs.SessionStates.{is_final};
ghost use Rattle.sc_model.specs.Transactions.{is_failure, is_success};

/// Whether a code is final: 200 or more.
pub fn is_final(code: u16) -> bool
    ensures { result ≡ is_final code }
{
    199 < code
}

/// Whether a code is a 2xx.
pub fn is_success(code: u16) -> bool
    ensures { result ≡ is_success code }
{
    199 < code && code < 300
}

/// Whether a code is 300 or more.
pub fn is_failure(code: u16) -> bool
    ensures { result ≡ is_failure code }
{
    300 <= code
}
