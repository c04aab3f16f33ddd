//! A configuration and a routing table as plain data.

ghost use Rattle.sc_terms.specs.RoutingTables.{IsDar};

use crate::{Apps, Expires, Port, Within};
use sc_value::{Address, List, Region, Text, Token};
use std::marker::Model;

/// The settings of a container. Each number keeps its range.
#[derive(Drop)]
pub struct Config {
    /// The address and the port, 1 to 65,535, that the container listens at.
    pub listen: ([u8; 4], Port),
    /// The domain whose requests are the container's own.
    pub domain: Text,
    /// 1 to 16 letters and digits that begin all names that the container draws.
    pub salt: Token,
    /// The number of worker threads, 1 to 32.
    pub workers: Within<1, 32>,
    /// After so many connections the server ends, 0 for never; at most 1,000,000.
    pub stop_after: Within<0, 1_000_000>,
    /// How many steps the journal takes, 1 to 1,000,000.
    pub journal_steps: Within<1, 1_000_000>,
    /// How many bytes the journal takes, 1 to 67,108,864.
    pub journal_bytes: Within<1, 67_108_864>,
    /// After so many steps an idle server begins a new journal, 0 for never; at most 1,000,000.
    pub epoch_steps: Within<0, 1_000_000>,
    /// Whether a server hands on what its journal has while sessions live.
    pub journal_parts: bool,
    /// Whether a server writes what goes to an address on the open connection that came from there
    /// (RFC 5923's connection reuse, without TLS).
    pub reuse: bool,
    /// The file to which a server writes the steps that it takes, 1 to 4,096 bytes; `None` for
    /// none.
    pub recording: Option<Text>,
    /// The names that the container knows, in byte order.
    pub hosts: List<HostEntry>,
    /// The applications, 1 to 64. The place of one is the number of its host.
    pub app: Apps,
}

/// A host's name with its address.
#[derive(Drop)]
pub struct HostEntry {
    pub name: Text,
    pub ip: [u8; 4],
}

/// An application.
#[derive(Drop)]
pub struct AppEntry {
    pub name: Text,
    /// The place of its kind in the catalogue.
    pub kind: usize,
    pub params: List<Text>,
    /// After so many minutes its sessions expire, 0 or less for never; -1 to 10,080.
    pub expires: Expires,
}

/// The table of the Default Application Router (JSR 289 appendix C). Each method is a token that
/// doesn't begin with `!`, stands once, and has 1 to 64 tuples.
#[derive(Drop)]
pub struct Dar {
    pub lists: List<MethodList>,
}

impl Model for Dar {
    ghost use Rattle.sc_terms.specs.RoutingTables.{DarValue, IsDar};

    ghost Value = { DarValue };

    ghost view = { λ d. record { lists = d.lists } };

    ghost invariant = { λ d. IsDar (record { lists = d.lists }) };
}

impl Dar {
    /// Each method is a token that begins no comment, stands once, and has 1 to 64 tuples.
    pub fn known(&self)
        ensures { IsDar self.now }
    {
        let _ = &self.lists;
    }
}

/// The applications for a method, in order.
#[derive(Drop)]
pub struct MethodList {
    pub method: Text,
    pub tuples: List<Tuple>,
}

/// An application in the order of a method.
#[derive(Drop)]
pub struct Tuple {
    /// The application's place in the configuration.
    pub app: u32,
    /// The subscriber: a text, or `DAR:` and the name of a header that gives it.
    pub subscriber: Text,
    pub region: Region,
    pub route: Option<Address>,
    pub modifier: Modifier,
}

/// What is done with a tuple's route (JSR 289 section 15.6).
#[derive(Clone, Copy, Debug, PartialEq, Eq)]
pub enum Modifier {
    /// The request goes to the route, and the application isn't called, unless the route is the
    /// container's own.
    Route,
    /// The request goes to the route and comes back to the router behind this tuple.
    RouteBack,
    /// The route isn't used.
    NoRoute,
}
