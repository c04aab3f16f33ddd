//! The targets that a response adds (RFC 3261 section 16.5).

ghost use Rattle.std.specs.Prelude.{◌≡◌, ◌++◌, IfOk, OnOk};
ghost use Rattle.std.specs.List.{flat_map, list_any};
ghost use Rattle.std.specs.Option.{option_copied};
ghost use Rattle.sc_grammar.specs.Written.{uri_text};
ghost use Rattle.sc_model.specs.Dialogs.{contact_uri};
ghost use Rattle.sc_hosts.specs.RefusalParts.{MOST_BRANCHES};
ghost use Rattle.sc_branches.specs.Targets.{target_of, targets_of, has_text, with_new};
ghost use Rattle.sc_hosts.specs.Branches.{added_targets, contacts_of, is_redirect, new_targets, sip_uri, was_tried};

use crate::options::recurses;
use sc_message_text::uri_text;
use sc_state::Proxy;
use sc_value::{CloneIn, Contact, List, NoMemory, Response, Text, Uri};
use std::alloc::Global;

/// How many branches an application session has at most.
const MOST_BRANCHES: usize = 32;

fn is_redirect(code: u16) -> bool
    ensures { result ≡ is_redirect code }
{
    300 <= code && code < 400
}

// The `sip:` URI of a Contact.
#[tactic(auto, unfolding(crate::specs::Targets::target_of, sc_hosts::specs::Branches::sip_uri, sc_model::specs::Dialogs::contact_uri))]
fn target_of(contact: &Contact) -> Option<&Uri>
    ensures { option_copied result ≡ target_of contact.now }
{
    match contact {
        Contact::At(address) => match &address.uri {
            Uri::Sip(_) => Some(&address.uri),
            Uri::Other(_) => None,
        },
        Contact::Star => None,
    }
}

#[tactic(auto, unfolding(crate::specs::Targets::targets_of))]
fn add_contact(alloc: Global, uris: &mut List<Uri>, contact: &Contact) -> Result<(), NoMemory>
    ensures { OnOk result (uris.new ≡ uris.old ++ targets_of contact.now) }
{
    match target_of(contact) {
        Some(uri) => {
            let copy = uri.clone_in(alloc)?;
            uris.push(copy)?;
            Ok(())
        }
        None => Ok(()),
    }
}

fn add_contacts(alloc: Global, uris: &mut List<Uri>, contacts: &[Contact]) -> Result<(), NoMemory>
    ensures { OnOk result (uris.new ≡ uris.old ++ flat_map targets_of contacts.now) }
{
    for contact in contacts {
        add_contact(alloc, uris, contact)?;
    }
    Ok(())
}

#[tactic(auto, unfolding(sc_hosts::specs::Branches::contacts_of, crate::specs::Targets::target_of), using(crate::proofs::Contacts::all_targets))]
fn contacts_of(alloc: Global, response: &Response) -> Result<List<Uri>, NoMemory>
    ensures { IfOk result (λ uris. uris ≡ contacts_of response.now) }
{
    let mut uris = List::new(alloc);
    add_contacts(alloc, &mut uris, response.head.contact.as_slice())?;
    Ok(uris)
}

#[tactic(auto, unfolding(crate::specs::Targets::has_text))]
fn is_text(alloc: Global, uri: &Uri, text: &[u8]) -> Result<bool, NoMemory>
    ensures { IfOk result (λ found. found ≡ has_text text.now uri.now) }
{
    let own = uri_text(alloc, uri)?;
    Ok(own.as_bytes() == text)
}

// Whether a URI of this written text is among them.
fn has_text(alloc: Global, tried: &[Uri], text: &[u8]) -> Result<bool, NoMemory>
    ensures { IfOk result (λ found. found ≡ list_any (has_text text.now) tried.now) }
{
    for uri in tried {
        if is_text(alloc, uri, text)? {
            return Ok(true);
        }
    }
    Ok(false)
}

#[tactic(auto, unfolding(sc_hosts::specs::Branches::was_tried, crate::specs::Targets::has_text))]
fn was_tried(alloc: Global, tried: &[Uri], uri: &Uri) -> Result<bool, NoMemory>
    ensures { IfOk result (λ found. found ≡ was_tried tried.now uri.now) }
{
    let text = uri_text(alloc, uri)?;
    has_text(alloc, tried, text.as_bytes())
}

// The URI at the end of the list, unless it was tried.
#[tactic(auto, unfolding(crate::specs::Targets::with_new))]
fn with_new(alloc: Global, known: bool, uri: &Uri, uris: &mut List<Uri>) -> Result<(), NoMemory>
    ensures { OnOk result (uris.new ≡ with_new known uri.now uris.old) }
{
    if known {
        return Ok(());
    }
    let copy = uri.clone_in(alloc)?;
    uris.push(copy)?;
    Ok(())
}

// Those whose written text was not tried, each once: `all` is what was tried and what is found.
fn find_untried(
    alloc: Global,
    all: &mut List<Uri>,
    found: &mut List<Uri>,
    uris: &[Uri],
) -> Result<(), NoMemory>
    ensures { OnOk result (found.new ≡ found.old ++ new_targets all.old uris.now) }
{
    for uri in uris {
        let known = was_tried(alloc, all.as_slice(), uri)?;
        with_new(alloc, known, uri, all)?;
        with_new(alloc, known, uri, found)?;
    }
    Ok(())
}

fn untried(alloc: Global, tried: &List<Uri>, uris: &[Uri]) -> Result<List<Uri>, NoMemory>
    ensures { IfOk result (λ found. found ≡ new_targets tried.now uris.now) }
{
    let mut all = tried.clone_in(alloc)?;
    let mut found = List::new(alloc);
    find_untried(alloc, &mut all, &mut found, uris)?;
    Ok(found)
}

/// The targets that a response adds: the new ones among the Contacts of a 3xx, up to 32 in all.
#[tactic(auto, unfolding(sc_hosts::specs::Branches::added_targets))]
pub fn added_targets(
    alloc: Global,
    proxy: &Proxy,
    response: &Response,
) -> Result<List<Uri>, NoMemory>
    ensures { IfOk result (λ uris. uris ≡ added_targets proxy.now response.now) }
{
    if !is_redirect(response.code) || !recurses(proxy) || proxy.settled {
        return Ok(List::new(alloc));
    }
    let contacts = contacts_of(alloc, response)?;
    let mut uris = untried(alloc, &proxy.tried, contacts.as_slice())?;
    uris.items
        .truncate(MOST_BRANCHES.saturating_sub(proxy.tried.len()));
    Ok(uris)
}
