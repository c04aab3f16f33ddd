//! The route set (RFC 3261 section 12.1).

ghost use Rattle.std.specs.Prelude.{◌≡◌, IfOk, reverse};

use sc_value::{Address, List, NoMemory, SharedList};

/// A copy of the list in reverse order.
pub fn reversed(routes: &SharedList<Address>) -> Result<List<Address>, NoMemory>
    ensures { IfOk result (λ l. l ≡ reverse routes.now) }
{
    let mut copy = routes.to_list()?;
    copy.items.reverse();
    Ok(copy)
}
