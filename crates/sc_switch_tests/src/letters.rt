//! The messages of the cases.

use sc_value::{NoMemory, Place, Text, write_u64};
use std::alloc::Global;

/// A message. Requests come on the first connection, responses from the target that they are of.
#[derive(Clone, Copy)]
pub enum Letter {
    /// An INVITE of Alice for Bob.
    Invite,
    /// An INVITE of another caller.
    OtherInvite,
    /// A PUBLISH of Carol, which begins a session of the second application.
    Publish,
    /// The CANCEL of the INVITE.
    Cancel,
    /// An ACK of Alice to no final response.
    Ack,
    /// A BYE of Alice in the dialog of the 180.
    Bye,
    /// A BYE of Alice in epoch 1, to the session of epoch 0.
    ByeOfEpoch0,
    /// A BYE of Alice in epoch 1, to the session of that epoch.
    ByeOfEpoch1,
    /// The answer 180 of the first target.
    RingingOfFirst,
    /// The answer 180 of the second of two targets that are tried at once.
    RingingOfSecond,
    /// The answer 486 of the first target.
    BusyOfFirst,
    /// The answer 200 of the first target.
    AcceptedByFirst,
    /// The answer 200 of the second target.
    AcceptedBySecond,
    /// The answer 603 of the first target.
    DeclinedByFirst,
    /// The answer 487 of the first target.
    EndedByFirst,
    /// The answer 180 of the first target to the application's own INVITE.
    RingingOfOwn,
    /// The answer 200 of the first target to the application's own MESSAGE.
    AcceptedOfOwn,
}

// The targets.
const ONE: Place = Place::To([127, 0, 0, 1], 5071);

const TWO: Place = Place::To([127, 0, 0, 1], 5072);

impl Letter {
    /// The place from which it comes.
    pub fn place(self) -> Place {
        match self {
            Letter::RingingOfSecond | Letter::AcceptedBySecond => TWO,
            Letter::RingingOfFirst
            | Letter::BusyOfFirst
            | Letter::AcceptedByFirst
            | Letter::DeclinedByFirst
            | Letter::EndedByFirst
            | Letter::RingingOfOwn
            | Letter::AcceptedOfOwn => ONE,
            _ => Place::Back(1),
        }
    }

    /// Its text.
    pub fn text(self) -> &'static [u8] {
        match self {
            Letter::Invite => invite(),
            Letter::OtherInvite => other_invite(),
            Letter::Publish => publish(),
            Letter::Cancel => cancel(),
            Letter::Ack => ack(),
            Letter::Bye => bye(),
            Letter::ByeOfEpoch0 => bye_of_epoch_0(),
            Letter::ByeOfEpoch1 => bye_of_epoch_1(),
            Letter::RingingOfFirst => ringing_of_the_first(),
            Letter::RingingOfSecond => ringing_of_the_second(),
            Letter::BusyOfFirst => busy_of_the_first(),
            Letter::AcceptedByFirst => accepted_by_the_first(),
            Letter::AcceptedBySecond => accepted_by_the_second(),
            Letter::DeclinedByFirst => declined_by_the_first(),
            Letter::EndedByFirst => ended_by_the_first(),
            Letter::RingingOfOwn => own_ringing(),
            Letter::AcceptedOfOwn => own_accepted(),
        }
    }
}

// Each text stands in a function, whose value no proof goes into.

fn invite() -> &'static [u8] {
    b"INVITE sip:bob@127.0.0.1:5070 SIP/2.0\r\nVia: SIP/2.0/TCP 127.0.0.1:5090;branch=z9hG4bKa1\r\nMax-Forwards: 70\r\nFrom: <sip:alice@home.test>;tag=a\r\nTo: <sip:bob@home.test>\r\nCall-ID: c5\r\nCSeq: 1 INVITE\r\nContact: <sip:alice@127.0.0.1:5090>\r\nContent-Length: 0\r\n\r\n"
}

fn other_invite() -> &'static [u8] {
    b"INVITE sip:bob@127.0.0.1:5070 SIP/2.0\r\nVia: SIP/2.0/TCP 127.0.0.1:5091;branch=z9hG4bKd1\r\nMax-Forwards: 70\r\nFrom: <sip:carol@home.test>;tag=d\r\nTo: <sip:bob@home.test>\r\nCall-ID: c6\r\nCSeq: 1 INVITE\r\nContact: <sip:carol@127.0.0.1:5091>\r\nContent-Length: 0\r\n\r\n"
}

fn publish() -> &'static [u8] {
    b"PUBLISH sip:carol@home.test SIP/2.0\r\nVia: SIP/2.0/TCP 127.0.0.1:5091;branch=z9hG4bKp1\r\nMax-Forwards: 70\r\nFrom: <sip:carol@home.test>;tag=p\r\nTo: <sip:carol@home.test>\r\nCall-ID: c7\r\nCSeq: 1 PUBLISH\r\nContent-Length: 0\r\n\r\n"
}

fn cancel() -> &'static [u8] {
    b"CANCEL sip:bob@127.0.0.1:5070 SIP/2.0\r\nVia: SIP/2.0/TCP 127.0.0.1:5090;branch=z9hG4bKa1\r\nMax-Forwards: 70\r\nFrom: <sip:alice@home.test>;tag=a\r\nTo: <sip:bob@home.test>\r\nCall-ID: c5\r\nCSeq: 1 CANCEL\r\nContent-Length: 0\r\n\r\n"
}

fn ack() -> &'static [u8] {
    b"ACK sip:127.0.0.1:5060;transport=tcp;lr;ap=0-1 SIP/2.0\r\nVia: SIP/2.0/TCP 127.0.0.1:5090;branch=z9hG4bKk9\r\nMax-Forwards: 70\r\nFrom: <sip:alice@home.test>;tag=a\r\nTo: <sip:bob@home.test>;tag=s1-0-1-1\r\nCall-ID: c5\r\nCSeq: 1 ACK\r\nContent-Length: 0\r\n\r\n"
}

fn bye() -> &'static [u8] {
    b"BYE sip:127.0.0.1:5060;transport=tcp;lr;ap=0-1 SIP/2.0\r\nVia: SIP/2.0/TCP 127.0.0.1:5090;branch=z9hG4bKb2\r\nMax-Forwards: 70\r\nFrom: <sip:alice@home.test>;tag=a\r\nTo: <sip:bob@home.test>;tag=s1-0-1-1\r\nCall-ID: c5\r\nCSeq: 2 BYE\r\nContent-Length: 0\r\n\r\n"
}

fn bye_of_epoch_0() -> &'static [u8] {
    b"BYE sip:127.0.0.1:5060;transport=tcp;lr;ap=0-1 SIP/2.0\r\nVia: SIP/2.0/TCP 127.0.0.1:5090;branch=z9hG4bKb3\r\nMax-Forwards: 70\r\nFrom: <sip:alice@home.test>;tag=a\r\nTo: <sip:bob@home.test>;tag=s1.1-0-1-1\r\nCall-ID: c5\r\nCSeq: 2 BYE\r\nContent-Length: 0\r\n\r\n"
}

fn bye_of_epoch_1() -> &'static [u8] {
    b"BYE sip:127.0.0.1:5060;transport=tcp;lr;ap=0-1.1 SIP/2.0\r\nVia: SIP/2.0/TCP 127.0.0.1:5090;branch=z9hG4bKb4\r\nMax-Forwards: 70\r\nFrom: <sip:alice@home.test>;tag=a\r\nTo: <sip:bob@home.test>;tag=s1.1-0-1-1\r\nCall-ID: c5\r\nCSeq: 3 BYE\r\nContent-Length: 0\r\n\r\n"
}

fn ringing_of_the_first() -> &'static [u8] {
    b"SIP/2.0 180 Ringing\r\nVia: SIP/2.0/TCP 127.0.0.1:5060;branch=z9hG4bKs1-0-1-2\r\nVia: SIP/2.0/TCP 127.0.0.1:5090;branch=z9hG4bKa1\r\nFrom: <sip:alice@home.test>;tag=a\r\nTo: <sip:bob@home.test>;tag=t1\r\nCall-ID: c5\r\nCSeq: 1 INVITE\r\nContent-Length: 0\r\n\r\n"
}

fn ringing_of_the_second() -> &'static [u8] {
    b"SIP/2.0 180 Ringing\r\nVia: SIP/2.0/TCP 127.0.0.1:5060;branch=z9hG4bKs1-0-1-3\r\nVia: SIP/2.0/TCP 127.0.0.1:5090;branch=z9hG4bKa1\r\nFrom: <sip:alice@home.test>;tag=a\r\nTo: <sip:bob@home.test>;tag=t2\r\nCall-ID: c5\r\nCSeq: 1 INVITE\r\nContent-Length: 0\r\n\r\n"
}

fn busy_of_the_first() -> &'static [u8] {
    b"SIP/2.0 486 Busy Here\r\nVia: SIP/2.0/TCP 127.0.0.1:5060;branch=z9hG4bKs1-0-1-2\r\nVia: SIP/2.0/TCP 127.0.0.1:5090;branch=z9hG4bKa1\r\nFrom: <sip:alice@home.test>;tag=a\r\nTo: <sip:bob@home.test>;tag=t1\r\nCall-ID: c5\r\nCSeq: 1 INVITE\r\nContent-Length: 0\r\n\r\n"
}

fn accepted_by_the_first() -> &'static [u8] {
    b"SIP/2.0 200 OK\r\nVia: SIP/2.0/TCP 127.0.0.1:5060;branch=z9hG4bKs1-0-1-2\r\nVia: SIP/2.0/TCP 127.0.0.1:5090;branch=z9hG4bKa1\r\nFrom: <sip:alice@home.test>;tag=a\r\nTo: <sip:bob@home.test>;tag=t1\r\nCall-ID: c5\r\nCSeq: 1 INVITE\r\nContact: <sip:x@127.0.0.1:5071>\r\nContent-Length: 0\r\n\r\n"
}

fn accepted_by_the_second() -> &'static [u8] {
    b"SIP/2.0 200 OK\r\nVia: SIP/2.0/TCP 127.0.0.1:5060;branch=z9hG4bKs1-0-1-3\r\nVia: SIP/2.0/TCP 127.0.0.1:5090;branch=z9hG4bKa1\r\nFrom: <sip:alice@home.test>;tag=a\r\nTo: <sip:bob@home.test>;tag=t2\r\nCall-ID: c5\r\nCSeq: 1 INVITE\r\nContact: <sip:x@127.0.0.1:5072>\r\nContent-Length: 0\r\n\r\n"
}

fn declined_by_the_first() -> &'static [u8] {
    b"SIP/2.0 603 Decline\r\nVia: SIP/2.0/TCP 127.0.0.1:5060;branch=z9hG4bKs1-0-1-2\r\nVia: SIP/2.0/TCP 127.0.0.1:5090;branch=z9hG4bKa1\r\nFrom: <sip:alice@home.test>;tag=a\r\nTo: <sip:bob@home.test>;tag=t1\r\nCall-ID: c5\r\nCSeq: 1 INVITE\r\nContent-Length: 0\r\n\r\n"
}

fn ended_by_the_first() -> &'static [u8] {
    b"SIP/2.0 487 Request Terminated\r\nVia: SIP/2.0/TCP 127.0.0.1:5060;branch=z9hG4bKs1-0-1-2\r\nVia: SIP/2.0/TCP 127.0.0.1:5090;branch=z9hG4bKa1\r\nFrom: <sip:alice@home.test>;tag=a\r\nTo: <sip:bob@home.test>;tag=t1\r\nCall-ID: c5\r\nCSeq: 1 INVITE\r\nContent-Length: 0\r\n\r\n"
}

fn own_ringing() -> &'static [u8] {
    b"SIP/2.0 180 Ringing\r\nVia: SIP/2.0/TCP 127.0.0.1:5060;branch=z9hG4bKs1-0-1-4\r\nFrom: <sip:d@home.test>;tag=s1-0-1-3\r\nTo: <sip:x@127.0.0.1:5071>;tag=t6\r\nCall-ID: s1-0-1-2@127.0.0.1\r\nCSeq: 1 INVITE\r\nContent-Length: 0\r\n\r\n"
}

fn own_accepted() -> &'static [u8] {
    b"SIP/2.0 200 OK\r\nVia: SIP/2.0/TCP 127.0.0.1:5060;branch=z9hG4bKs1-0-1-4\r\nFrom: <sip:d@home.test>;tag=s1-0-1-3\r\nTo: <sip:x@127.0.0.1:5071>;tag=t5\r\nCall-ID: s1-0-1-2@127.0.0.1\r\nCSeq: 1 MESSAGE\r\nContent-Length: 0\r\n\r\n"
}

// What stands before, between and behind the two places of a number.
type Parts = [&'static [u8]; 3];

fn info_parts() -> Parts {
    [
        b"INFO sip:127.0.0.1:5060;transport=tcp;lr;ap=0-1 SIP/2.0\r\nVia: SIP/2.0/TCP 127.0.0.1:5090;branch=z9hG4bKi",
        b"\r\nMax-Forwards: 70\r\nFrom: <sip:alice@home.test>;tag=a\r\nTo: <sip:bob@home.test>;tag=s1-0-1-1\r\nCall-ID: c5\r\nCSeq: ",
        b" INFO\r\nContent-Length: 0\r\n\r\n",
    ]
}

fn options_parts() -> Parts {
    [
        b"OPTIONS sip:alice@home.test SIP/2.0\r\nVia: SIP/2.0/TCP 127.0.0.1:5090;branch=z9hG4bKa",
        b"\r\nMax-Forwards: 70\r\nFrom: <sip:bob@home.test>;tag=b1\r\nTo: <sip:alice@home.test>\r\nCall-ID: c1\r\nCSeq: ",
        b" OPTIONS\r\nContent-Length: 0\r\n\r\n",
    ]
}

fn numbered(alloc: Global, parts: Parts, number: u64) -> Result<Text, NoMemory> {
    let [before, between, behind] = parts;
    let mut text = Text::from_slice(alloc, before)?;
    write_u64(number, &mut text)?;
    text.append(between)?;
    write_u64(number, &mut text)?;
    text.append(behind)?;
    Ok(text)
}

/// An INFO of Alice in the dialog of the INVITE, of this number of CSeq, with a branch of its own.
pub fn info(alloc: Global, number: u64) -> Result<Text, NoMemory> {
    numbered(alloc, info_parts(), number)
}

/// An OPTIONS of Bob without a dialog, of this number of CSeq, with a branch of its own.
pub fn options(alloc: Global, number: u64) -> Result<Text, NoMemory> {
    numbered(alloc, options_parts(), number)
}
