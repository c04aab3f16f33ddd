//! Addresses (RFC 3261 section 20.10).

ghost use Rattle.std.specs.Prelude.{◌≡◌, ◌++◌, OnOk};
ghost use Rattle.sc_grammar.specs.Written.{address_text, contact_text};

use sc_uri_text::{Growing, put_ended, put_params, put_uri};
use sc_value::{Address, Contact, NoMemory, shared_value};

/// Appends an address as it is written (RFC 3261 section 20.10). For want of memory `out` may hold
/// a part of it.
#[tactic(auto, unfolding(sc_grammar::specs::Written::address_text))]
pub fn put_address<G: Growing>(address: &Address, out: &mut G) -> Result<(), NoMemory>
    ensures { OnOk result (G.bytes out.new ≡ G.bytes out.old ++ address_text address.now) }
{
    put_ended(shared_value(&address.display), b' ', out)?;
    out.put_one(b'<')?;
    put_uri(&address.uri, out)?;
    out.put_one(b'>')?;
    put_params(address.params.as_slice(), out)
}

#[tactic(auto, unfolding(sc_grammar::specs::Written::contact_text))]
pub fn put_contact<G: Growing>(contact: &Contact, out: &mut G) -> Result<(), NoMemory>
    ensures { OnOk result (G.bytes out.new ≡ G.bytes out.old ++ contact_text contact.now) }
{
    match contact {
        Contact::Star => out.put_one(b'*'),
        Contact::At(address) => put_address(address, out),
    }
}
