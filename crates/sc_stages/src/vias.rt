//! The Via by which a transaction is found.

ghost use Rattle.std.specs.Prelude.{◌≡◌};
ghost use Rattle.std.specs.Option.{option_copied};
ghost use Rattle.sc_stages.specs.Requests.{top_via, branch_of};

use sc_value::{Via, branch};

/// The top Via, None where there is none.
pub fn top_via(via: &[Via]) -> Option<&Via>
    ensures { option_copied result ≡ top_via via.now }
{
    via.first()
}

/// The branch of a Via, empty where it has none.
pub fn branch_of(via: &Via) -> &[u8]
    ensures { result.now ≡ branch_of via.now }
{
    match branch(via) {
        Some(text) => text.as_bytes(),
        None => b"",
    }
}
