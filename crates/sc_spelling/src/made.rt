//! Messages as they are made: their types keep the grammar (RFC 3261 section 25.1).

ghost use Rattle.std.specs.Prelude.{◌≡◌, ◌<◌, Ok};
ghost use Rattle.sc_value.specs.AddressValues.{IsAddress};
ghost use Rattle.sc_value.specs.ContactRules.{IsContact};
ghost use Rattle.sc_value.specs.ViaValues.{IsVia};
ghost use Rattle.sc_value.specs.declared.message.Message.{Message};
ghost use Rattle.sc_grammar.specs.Written.{text_of_message};
ghost use Rattle.sc_syntax.specs.Messages.{message_of};
ghost use Rattle.sc_spelling.specs.Kept.{AllKeep, HasBranch, HasRoom, IsHead};
ghost use Rattle.sc_spelling.specs.Made.{HasCode, IsMade};
ghost use Rattle.sc_spelling.specs.SpelledMessages.{HasMethod};

use sc_value::{Address, Contact, Head, Message, Via};

/// The written form of a message is never read as another message, and it is read as this one
/// again, where the method of a request is that of its CSeq, the code of a response is 100 to 699,
/// the first Via has its branch, and there are at most 128 values (RFC 3261 section 7). That each
/// part keeps the grammar is no premise, since its type keeps it. The contract is the law, and the
/// call does nothing but look at the parts.
#[tactic(auto, using(crate::proofs::MadeLaws::made_again, crate::proofs::NeverAnother::never_another))]
pub fn written_again(message: &Message)
    ensures again { HasMethod message.now → HasCode message.now → HasBranch message.now
        → HasRoom message.now → message_of (text_of_message message.now) ≡ Ok message.now }
    ensures never_another { (other : Message) → message_of (text_of_message message.now) ≡ Ok other
        → other ≡ message.now }
{
    known(message);
}

// What the types of its parts keep.
#[tactic(auto, using(crate::proofs::MadeLaws::request_made, crate::proofs::MadeLaws::response_made))]
fn known(message: &Message)
    ensures { IsMade message.now }
{
    match message {
        Message::Request(request) => {
            let request = request.get();
            request.method.known();
            request.uri.known();
            hops_known(request.hops);
            head_known(&request.head);
        }
        Message::Response(response) => {
            let response = response.get();
            response.reason.known();
            code_known(response.code);
            head_known(&response.head);
        }
    }
}

fn hops_known(hops: u8)
    ensures { hops < 256 }
{
    let _ = hops;
}

fn code_known(code: u16)
    ensures { code < 65536 }
{
    let _ = code;
}

#[tactic(auto, using(crate::proofs::MadeLaws::head_made))]
fn head_known(head: &Head)
    ensures { IsHead head.now }
{
    vias_known(head.via.as_slice());
    addresses_known(head.route.as_slice());
    addresses_known(head.record_route.as_slice());
    head.from.known();
    head.to.known();
    head.call_id.known();
    head.cseq.known();
    contacts_known(head.contact.as_slice());
    head.others.known();
    let _len = head.body.len();
}

#[tactic(auto, unfolding(crate::specs::Kept::AllKeep))]
fn vias_known(vias: &[Via])
    ensures { AllKeep IsVia vias.now }
{
    for i in 0..vias.len() {
        vias[i].known();
    }
}

#[tactic(auto, unfolding(crate::specs::Kept::AllKeep))]
fn addresses_known(addresses: &[Address])
    ensures { AllKeep IsAddress addresses.now }
{
    for i in 0..addresses.len() {
        addresses[i].known();
    }
}

#[tactic(auto, unfolding(crate::specs::Kept::AllKeep))]
fn contacts_known(contacts: &[Contact])
    ensures { AllKeep IsContact contacts.now }
{
    for i in 0..contacts.len() {
        contacts[i].known();
    }
}
