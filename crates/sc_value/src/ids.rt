use crate::{CloneIn, NoMemory, Same};
use std::alloc::Global;

/// The name of an application session, written `h-s`: the application's place in the
/// configuration, from 0, and the session's number at that host, from 1.
#[derive(Clone, Copy, Debug, PartialEq, Eq)]
pub struct AppId {
    pub host: u32,
    pub serial: u64,
}

/// The number of a SipSession in its application session, from 1.
#[derive(Clone, Copy, Debug, PartialEq, Eq)]
pub struct SessId(pub u32);

/// The number of a request in its application session, from 1.
#[derive(Clone, Copy, Debug, PartialEq, Eq)]
pub struct ReqId(pub u32);

/// The number of a servlet timer in its application session, from 1.
#[derive(Clone, Copy, Debug, PartialEq, Eq)]
pub struct TimerId(pub u32);

/// Where a message comes from or goes to outside the container.
#[derive(Clone, Copy, Debug, PartialEq, Eq)]
pub enum Place {
    /// A connection that a peer opened, by its number.
    Back(u64),
    /// An address that the container connects to.
    To([u8; 4], u16),
}

/// The routing region of a request (JSR 289 section 15.8).
#[derive(Clone, Copy, Debug, PartialEq, Eq)]
pub enum Region {
    Originating,
    Terminating,
    Neutral,
}

/// How the router goes on from the place of an origin (JSR 289 section 15.2.2).
#[derive(Clone, Copy, Debug, PartialEq, Eq)]
pub enum Directive {
    /// From the beginning, as for a request from outside.
    New,
    /// With the application after the origin's.
    Continue,
    /// In the opposite region.
    Reverse,
}

impl Same for AppId {
    fn same(&self, other: &AppId) -> bool {
        *self == *other
    }
}

impl Same for SessId {
    fn same(&self, other: &SessId) -> bool {
        *self == *other
    }
}

impl Same for Directive {
    fn same(&self, other: &Directive) -> bool {
        *self == *other
    }
}

impl Same for Region {
    fn same(&self, other: &Region) -> bool {
        *self == *other
    }
}

impl CloneIn for SessId {
    fn clone_in(&self, _alloc: Global) -> Result<SessId, NoMemory> {
        Ok(*self)
    }
}
