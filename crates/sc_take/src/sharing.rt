//! What a response from outside says as its request does is kept once.

ghost use Rattle.std.specs.Prelude.{◌≡◌, ◌∷◌, [], IfOk};
ghost use Rattle.sc_value.specs.declared.parts.Contact.{Contact};

use sc_value::{
    Address, CloneIn, Contact, Head, List, NoMemory, Request, Same, Shared, SharedList, Uri,
};
use std::alloc::Global;

// What is the same as a transaction's own has the transaction's owner from now on. Where the count
// of its owners is full, nothing is changed.
fn share<T: Same + CloneIn>(alloc: Global, own: &T, item: &mut T)
    ensures { item.new ≡ item.old }
{
    if own.same(item) {
        match own.clone_in(alloc) {
            Ok(copy) => *item = copy,
            Err(NoMemory) => {}
        }
    }
}

// The address with this owner of its URI.
fn with_uri(alloc: Global, uri: &Uri, address: &Address) -> Result<Address, NoMemory>
    requires { uri.now ≡ address.now.uri }
    ensures { IfOk result (λ a. a ≡ address.now) }
{
    Ok(Address {
        display: address.display.clone_in(alloc)?,
        uri: uri.clone_in(alloc)?,
        params: address.params.clone_in(alloc)?,
    })
}

fn apart(alloc: Global, uri: &Uri, address: &Address) -> Result<Shared<Address>, NoMemory>
    requires { uri.now ≡ address.now.uri }
    ensures { IfOk result (λ a. a ≡ address.now) }
{
    let address = with_uri(alloc, uri, address)?;
    Shared::new(alloc, address)
}

fn alone(alloc: Global, uri: &Uri, address: &Address) -> Result<SharedList<Contact>, NoMemory>
    requires { uri.now ≡ address.now.uri }
    ensures { IfOk result (λ l. l ≡ Contact.At address.now ∷ []) }
{
    let mut contacts = List::new(alloc);
    contacts.push(Contact::At(with_uri(alloc, uri, address)?))?;
    SharedList::from_list(alloc, contacts)
}

// The URI of an address has this owner where it is the same.
fn share_uri(alloc: Global, own: &Uri, address: &mut Shared<Address>)
    ensures { address.new ≡ address.old }
{
    if own.same(&address.get().uri) {
        match apart(alloc, own, address.get()) {
            Ok(copy) => *address = copy,
            Err(NoMemory) => {}
        }
    }
}

// So has that of the only contact.
fn share_contact(alloc: Global, own: &Uri, contacts: &mut SharedList<Contact>)
    ensures { contacts.new ≡ contacts.old }
{
    let copy = match contacts.as_slice() {
        [Contact::At(address)] => {
            if !own.same(&address.uri) {
                return;
            }
            alone(alloc, own, address)
        }
        _ => return,
    };
    match copy {
        Ok(copy) => *contacts = copy,
        Err(NoMemory) => {}
    }
}

/// A response repeats its request's From, Call-ID and Record-Route and the URI of its To (RFC 3261
/// sections 8.2.6.2 and 12.1.1), and most callees have the URI at which they were reached as their
/// Contact.
pub fn share_head(alloc: Global, own: &Request, head: &mut Head)
    ensures { head.new ≡ head.old }
{
    share(alloc, &own.head.from, &mut head.from);
    share(alloc, &own.head.call_id, &mut head.call_id);
    share(alloc, &own.head.record_route, &mut head.record_route);
    share_uri(alloc, &own.head.to.get().uri, &mut head.to);
    share_contact(alloc, &own.uri, &mut head.contact);
}
