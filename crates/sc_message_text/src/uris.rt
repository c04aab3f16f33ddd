//! URIs (RFC 3261 section 19.1.1).

ghost use Rattle.std.specs.Prelude.{◌≡◌, IfOk};
ghost use Rattle.sc_grammar.specs.Written.{uri_text as uri_form};

use sc_uri_text::put_uri;
use sc_value::{NoMemory, Text, Uri};
use std::alloc::Global;

/// The text of a URI (RFC 3261 section 19.1.1). The one error is want of memory.
pub fn uri_text(alloc: Global, uri: &Uri) -> Result<Text, NoMemory>
    ensures { IfOk result (λ text. text ≡ uri_form uri.now) }
{
    let mut out = Text::new(alloc);
    put_uri(uri, &mut out)?;
    Ok(out)
}
