ghost use Rattle.std.specs.Prelude.{◌≡◌, ◌<◌, ◌≤◌, ◌↔◌, [], IsTrue, IfOk, IfErr, OnOk, OnErr, IsErrOf, Some, unwrap_or, max};
ghost use Rattle.std.specs.Option.{option_copied};
ghost use Rattle.sc_value.specs.declared.message.Message.{Message};
ghost use Rattle.sc_model.specs.Dialogs.{Beginning, Passed, dialog_of, Follows, request_target, response_target};
ghost use Rattle.sc_model.specs.DialogRequests.{is_askable, next_request, ack_request};

use crate::DialogRefused;
use crate::requests::{ack_request, next_request};
use crate::routes::reversed;
use crate::sides::{called_sides, calling_sides};
use crate::targets::{request_target, response_target};
use sc_terms::Inside;
use sc_value::{
    Address, CSeq, CloneIn, Discard, HeaderValue, List, NoMemory, Request, Response, Shared, Text,
    Uri,
};
use std::alloc::Global;
use std::marker::Model;

/// A dialog, seen from the own side (RFC 3261 section 12). A contract sees the dialog's state,
/// which is that of the dialog's messages.
#[derive(Drop)]
pub struct Dialog {
    lasting: Shared<Lasting>,
    target: Shared<Uri>,
    sent: u32,
    received: u32,
}

/// What stays as it is for as long as a dialog lives: copies of the dialog share it.
#[derive(Drop)]
struct Lasting {
    call_id: HeaderValue,
    local: Shared<Address>,
    remote: Shared<Address>,
    route_set: List<Address>,
    begun_by: Option<CSeq>,
}

impl Model for Dialog {
    ghost use Rattle.sc_model.specs.Dialogs.{DialogState};

    ghost Value = { DialogState };

    ghost view = { λ d.
        record {
          call_id = d.lasting.call_id;
          local = d.lasting.local;
          remote = d.lasting.remote;
          route_set = d.lasting.route_set;
          target = d.target;
          sent = d.sent;
          received = d.received;
          begun_by = d.lasting.begun_by;
        } };
}

impl Discard for Dialog {
    fn discard(self) {
        drop(self);
    }
}

impl CloneIn for Dialog {
    fn clone_in(&self, alloc: Global) -> Result<Dialog, NoMemory> {
        Ok(Dialog {
            lasting: self.lasting.clone_in(alloc)?,
            target: self.target.clone_in(alloc)?,
            sent: self.sent,
            received: self.received,
        })
    }
}

impl Dialog {
    /// The dialog of the called side: the peer's request, on which the own side puts this tag,
    /// begins it (RFC 3261 section 12.1.1).
    #[tactic(auto, using(sc_model::proofs::DialogLaws::called_dialog))]
    pub fn from_uas(alloc: Global, request: &Request, tag: &Text) -> Result<Dialog, NoMemory>
        ensures { IfOk result (λ d. d ≡ dialog_of (Beginning.Called tag.now request.now) []) }
    {
        let call_id = request.head.call_id.clone_in(alloc)?;
        let route_set = request.head.record_route.to_list()?;
        let sides = called_sides(alloc, &request.head, tag.as_bytes())?;
        let target = uas_target(alloc, request)?;
        let lasting = Lasting {
            call_id,
            local: sides.local,
            remote: sides.remote,
            route_set,
            begun_by: None,
        };
        shared(alloc, lasting, target, 0, request.head.cseq.number)
    }

    /// The dialog of the calling side: the own request and the response that gave the peer's tag
    /// begin it (RFC 3261 section 12.1.2).
    #[tactic(auto, using(sc_model::proofs::DialogLaws::calling_dialog))]
    pub fn from_uac(
        alloc: Global,
        request: &Request,
        response: &Response,
    ) -> Result<Dialog, NoMemory>
        ensures { IfOk result (λ d. d ≡ dialog_of (Beginning.Calling request.now response.now) []) }
    {
        let call_id = request.head.call_id.clone_in(alloc)?;
        let begun_by = begun_by(alloc, &request.head.cseq)?;
        let route_set = reversed(&response.head.record_route)?;
        let sides = calling_sides(alloc, &request.head, &response.head)?;
        let target = uac_target(alloc, &begun_by, request, response)?;
        let lasting = Lasting {
            call_id,
            local: sides.local,
            remote: sides.remote,
            route_set,
            begun_by,
        };
        shared(alloc, lasting, target, request.head.cseq.number, 0)
    }

    /// The Call-ID of all its messages.
    pub fn call_id(&self) -> &HeaderValue
        ensures { result.now ≡ self.now.call_id }
    {
        &self.lasting.get().call_id
    }

    /// The own side, as its requests write it in From: the URI and the tag alone.
    pub fn local(&self) -> &Shared<Address>
        ensures { result.now ≡ self.now.local }
    {
        &self.lasting.get().local
    }

    /// The peer's side, as requests to it write it in To: the URI and the tag alone.
    pub fn remote(&self) -> &Shared<Address>
        ensures { result.now ≡ self.now.remote }
    {
        &self.lasting.get().remote
    }

    /// The Routes of a request to the peer, in order.
    pub fn route_set(&self) -> &List<Address>
        ensures { result.now ≡ self.now.route_set }
    {
        &self.lasting.get().route_set
    }

    /// The Request-URI of a request to the peer.
    pub fn target(&self) -> &Uri
        ensures { result.now ≡ self.now.target }
    {
        self.target.get()
    }

    /// The greatest sequence number of the own requests in the dialog, 0 where there was none.
    pub fn last_sent(&self) -> u32
        ensures { result ≡ self.now.sent }
    {
        self.sent
    }

    /// The next request of the own side (RFC 3261 section 12.2.1.1), numbered one above the last
    /// one. It has no Via and no Contact. For want of memory nothing is changed.
    #[tactic(auto, using(sc_model::proofs::DialogLaws::follows_next))]
    pub fn next_request(&mut self, alloc: Global, ask: &Inside) -> Result<Request, NoMemory>
        requires asked { IsTrue (is_askable ask.now) }
        requires number { self.old.sent < 2147483647 }
        ensures made { IfOk result (λ r. r ≡ next_request self.old ask.now) }
        ensures ok { OnOk result
            (Follows self.old (Passed.By_self (Message.Request (next_request self.old ask.now)))
            self.new) }
        ensures err { OnErr result (self.new ≡ self.old) }
    {
        match next_request(alloc, self, ask) {
            Ok(request) => {
                self.sent += 1;
                Ok(request)
            }
            Err(NoMemory) => Err(NoMemory),
        }
    }

    /// Takes a request of the peer in the dialog (RFC 3261 section 12.2.2).
    ///
    /// # Errors
    ///
    /// Nothing is changed.
    /// - `LowCseq`: exactly where its number is lower than the greatest received. An equal one passes.
    /// - `NoMemory`: want of memory.
    #[tactic(auto, using(sc_model::proofs::DialogLaws::follows_request))]
    pub fn on_request(&mut self, alloc: Global, request: &Request) -> Result<(), DialogRefused>
        ensures ok { OnOk result
            (Follows self.old (Passed.By_peer (Message.Request request.now)) self.new) }
        ensures low { IsErrOf result
            (DialogRefused.LowCseq self.old.received request.now.head.cseq.number) ↔
            (request.now.head.cseq.number < self.old.received) }
        ensures only { IfErr result
            (λ e.
            (e ≡ DialogRefused.NoMemory → ⊥)
            → e ≡ DialogRefused.LowCseq self.old.received request.now.head.cseq.number) }
        ensures err { OnErr result (self.new ≡ self.old) }
    {
        let got = request.head.cseq.number;
        if got < self.received {
            return Err(DialogRefused::LowCseq {
                last: self.received,
                got,
            });
        }
        match self.accept(alloc, request) {
            Ok(()) => Ok(()),
            Err(NoMemory) => Err(DialogRefused::NoMemory),
        }
    }

    /// Takes a request whose number isn't too low.
    fn accept(&mut self, alloc: Global, request: &Request) -> Result<(), NoMemory>
        ensures ok { OnOk result
            (self.new
            ≡ record self.old {
              target = unwrap_or (request_target request.now) self.old.target;
              received = request.now.head.cseq.number;
            }) }
        ensures err { OnErr result (self.new ≡ self.old) }
    {
        self.set_target(alloc, request_target(request))?;
        self.received = request.head.cseq.number;
        Ok(())
    }

    /// Takes a further response of the peer in the dialog (RFC 3261 section 12.2.1.2). For want of
    /// memory nothing is changed.
    #[tactic(auto, using(sc_model::proofs::DialogLaws::follows_response))]
    pub fn on_response(&mut self, alloc: Global, response: &Response) -> Result<(), NoMemory>
        ensures ok { OnOk result
            (Follows self.old (Passed.By_peer (Message.Response response.now)) self.new) }
        ensures err { OnErr result (self.new ≡ self.old) }
    {
        let target = response_target(&self.lasting.get().begun_by, response);
        self.set_target(alloc, target)
    }

    /// The ACK to a 2xx, which takes the number of its INVITE (RFC 3261 section 13.2.2.4). It has
    /// no Via and no Contact. The dialog stays as it is.
    #[tactic(auto, using(sc_model::proofs::DialogLaws::follows_ack))]
    pub fn ack(&self, alloc: Global, number: u32, body: &Text) -> Result<Request, NoMemory>
        requires { number ≤ 2147483647 }
        ensures made { IfOk result (λ r. r ≡ ack_request self.now number body.now) }
        ensures stays { number ≤ self.now.sent
            → Follows self.now
            (Passed.By_self (Message.Request (ack_request self.now number body.now))) self.now }
    {
        ack_request(alloc, self, number, body)
    }

    /// The peer's request gives the target where it has one, and its number where that is greater
    /// than all before.
    pub fn hear_request(&mut self, alloc: Global, request: &Request) -> Result<(), NoMemory>
        ensures { OnOk result
            (self.new
            ≡ record self.old {
              target = unwrap_or (request_target request.now) self.old.target;
              received = max self.old.received request.now.head.cseq.number;
            }) }
    {
        self.set_target(alloc, request_target(request))?;
        self.received = self.received.max(request.head.cseq.number);
        Ok(())
    }

    /// The peer's response gives the target where it has one.
    pub fn hear_response(&mut self, alloc: Global, response: &Response) -> Result<(), NoMemory>
        ensures { OnOk result
            (self.new
            ≡ record self.old {
              target = unwrap_or (response_target self.old.begun_by response.now)
                  self.old.target;
            }) }
    {
        let target = response_target(&self.lasting.get().begun_by, response);
        self.set_target(alloc, target)
    }

    /// An own request has this number.
    pub fn count_sent(&mut self, number: u32)
        ensures { self.new ≡ record self.old { sent = max self.old.sent number } }
    {
        self.sent = self.sent.max(number);
    }

    fn set_target(&mut self, alloc: Global, target: Option<&Uri>) -> Result<(), NoMemory>
        ensures ok { OnOk result
            (self.new
            ≡ record self.old {
              target = unwrap_or (option_copied target.entry) self.old.target;
            }) }
        ensures err { OnErr result (self.new ≡ self.old) }
    {
        match target {
            Some(uri) => {
                let uri = uri.clone_in(alloc)?;
                self.target = Shared::new(alloc, uri)?;
                Ok(())
            }
            None => Ok(()),
        }
    }
}

// The dialog of these parts, which its copies share.
fn shared(
    alloc: Global,
    lasting: Lasting,
    target: Uri,
    sent: u32,
    received: u32,
) -> Result<Dialog, NoMemory>
    ensures { IfOk result
        (λ d.
        d
        ≡ record {
          call_id = lasting.call_id;
          local = lasting.local;
          remote = lasting.remote;
          route_set = lasting.route_set;
          target = target;
          sent = sent;
          received = received;
          begun_by = lasting.begun_by;
        }) }
{
    let target = Shared::new(alloc, target)?;
    let lasting = Shared::new(alloc, lasting)?;
    Ok(Dialog {
        lasting,
        target,
        sent,
        received,
    })
}

fn begun_by(alloc: Global, cseq: &CSeq) -> Result<Option<CSeq>, NoMemory>
    ensures { IfOk result (λ c. c ≡ Some cseq.now) }
{
    let cseq = cseq.clone_in(alloc)?;
    Ok(Some(cseq))
}

fn uac_target(
    alloc: Global,
    begun_by: &Option<CSeq>,
    request: &Request,
    response: &Response,
) -> Result<Uri, NoMemory>
    ensures { IfOk result
        (λ u. u ≡ unwrap_or (response_target begun_by.now response.now) request.now.uri) }
{
    match response_target(begun_by, response) {
        Some(uri) => uri.clone_in(alloc),
        None => request.uri.clone_in(alloc),
    }
}

fn uas_target(alloc: Global, request: &Request) -> Result<Uri, NoMemory>
    ensures { IfOk result
        (λ u. u ≡ unwrap_or (request_target request.now) request.now.head.from.uri) }
{
    match request_target(request) {
        Some(uri) => uri.clone_in(alloc),
        None => request.head.from.uri.clone_in(alloc),
    }
}
