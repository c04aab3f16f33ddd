ghost use Rattle.std.specs.Prelude.{◌≡◌, ◌<◌, ◌↔◌, [], ◌∷◌, ◌++◌, map, length, position, is_some, Option, Some, option_map, IsTrue, OnOk, OnErr, IfSome, IsErrOf, vec_len, vec_capacity};
ghost use Rattle.std.specs.List.{slice_get};
ghost use Rattle.sc_servlets.specs.Stated.{both_charters};
ghost use Rattle.sc_tokens.specs.Names.{same_bytes};

use crate::{Listener, SipServlet};
use sc_terms::{Charter, ListenerCharter};
use sc_value::{List, NoMemory, Text};
use std::alloc::Global;

/// What an application of one kind is made of.
#[derive(Drop)]
pub struct Kind {
    pub servlet: Box<dyn SipServlet>,
    pub listener: Option<Box<dyn Listener>>,
}

/// The kinds of applications that a program has, each with its name.
#[derive(Drop)]
pub struct Catalogue {
    /// The names in the order in which they were added, no two the same.
    pub names: List<Text>,
    /// The kind of each name, at its place.
    pub kinds: List<Kind>,
    pub ghost paired: { length names ≡ length kinds },
}

/// Why a kind was not added. The catalogue is as it was.
#[derive(Clone, Copy, Debug, PartialEq, Eq)]
pub enum AddRefused {
    /// A kind has the name.
    DoubleName,
    /// Want of memory.
    NoMemory,
}

impl Catalogue {
    /// The catalogue of no kinds. It takes no memory.
    pub fn new(alloc: Global) -> Catalogue
        ensures names { result.names ≡ [] }
        ensures kinds { result.kinds ≡ [] }
    {
        Catalogue {
            names: List::new(alloc),
            kinds: List::new(alloc),
        }
    }

    /// Adds a kind at the end.
    ///
    /// # Errors
    ///
    /// `DoubleName` exactly where a kind has the name, else `NoMemory` for want of memory. The
    /// catalogue is then as it was.
    pub fn add(
        &mut self,
        name: Text,
        servlet: Box<dyn SipServlet>,
        listener: Option<Box<dyn Listener>>,
    ) -> Result<(), AddRefused>
        ensures names { OnOk result (self.new.names ≡ self.old.names ++ name ∷ []) }
        ensures charters { OnOk result
            (map (λ k. both_charters (stated k.servlet) (option_map (λ l. listens l) k.listener))
            self.new.kinds
            ≡ map (λ k. both_charters (stated k.servlet) (option_map (λ l. listens l) k.listener))
            self.old.kinds
            ++ both_charters (stated servlet) (option_map (λ l. listens l) listener) ∷ []) }
        ensures double { IsErrOf result AddRefused.DoubleName ↔ IsTrue
            (is_some (position (λ known. same_bytes known name) self.old.names)) }
        ensures same_names { OnErr result (self.new.names ≡ self.old.names) }
        ensures same_kinds { OnErr result (self.new.kinds ≡ self.old.kinds) }
    {
        if self.has(&name) {
            return Err(AddRefused::DoubleName);
        }
        match put(
            &mut self.names,
            &mut self.kinds,
            name,
            Kind { servlet, listener },
        ) {
            Ok(()) => Ok(()),
            Err(NoMemory) => Err(AddRefused::NoMemory),
        }
    }

    fn has(&self, name: &Text) -> bool
        ensures { result ≡ is_some (position (λ known. same_bytes known name.now) self.now.names) }
    {
        self.find(name).is_some()
    }

    /// The names in the order in which they were added.
    pub fn names(&self) -> &List<Text>
        ensures { result.now ≡ self.now.names }
    {
        &self.names
    }

    /// The place of the kind of this name, None exactly where no kind has it. It takes no memory.
    pub fn find(&self, name: &Text) -> Option<usize>
        ensures found { result ≡ position (λ known. same_bytes known name.now) self.now.names }
        ensures within { IfSome result (λ kind. kind < length self.now.kinds) }
    {
        place_in(self.names.as_slice(), name)
    }

    /// The charters of a kind's servlet and listener.
    pub fn charters(&self, kind: usize) -> (Charter, Option<ListenerCharter>)
        requires { kind < length self.now.kinds }
        ensures { slice_get
            (map (λ k. both_charters (stated k.servlet) (option_map (λ l. listens l) k.listener))
            self.now.kinds) kind ≡ Some result }
    {
        self.kinds.items[kind].charters()
    }

    /// Whether each turn of the kind at this place is short, of its servlet and of its listener;
    /// not where no kind stands there.
    pub fn is_short(&self, kind: usize) -> bool {
        match self.kinds.as_slice().get(kind) {
            Some(kind) => kind.is_short(),
            None => false,
        }
    }
}

impl Kind {
    /// The charters of the servlet and of the listener.
    pub fn charters(&self) -> (Charter, Option<ListenerCharter>)
        ensures { result
            ≡ both_charters (stated self.now.servlet)
            (option_map (λ l. listens l) self.now.listener) }
    {
        (self.servlet.charter(), listener_charter(&self.listener))
    }

    fn is_short(&self) -> bool {
        self.servlet.is_short() && is_short_listener(&self.listener)
    }
}

fn is_short_listener(listener: &Option<Box<dyn Listener>>) -> bool {
    match listener {
        Some(listener) => listener.is_short(),
        None => true,
    }
}

fn listener_charter(listener: &Option<Box<dyn Listener>>) -> Option<ListenerCharter>
    ensures { result ≡ option_map (λ l. listens l) listener.now }
{
    match listener {
        Some(listener) => Some(listener.charter()),
        None => None,
    }
}

fn place_in(names: &[Text], name: &Text) -> Option<usize>
    ensures { result ≡ position (λ known. same_bytes known name.now) names.now }
{
    names
        .iter()
        .position(|known| known.as_bytes() == name.as_bytes())
}

/// Puts a name and its kind at the ends of the lists, or for want of memory neither.
fn put(
    names: &mut List<Text>,
    kinds: &mut List<Kind>,
    name: Text,
    kind: Kind,
) -> Result<(), NoMemory>
    ensures names { OnOk result (names.new ≡ names.old ++ name ∷ []) }
    ensures kinds { OnOk result (kinds.new ≡ kinds.old ++ kind ∷ []) }
    ensures same_names { OnErr result (names.new ≡ names.old) }
    ensures same_kinds { OnErr result (kinds.new ≡ kinds.old) }
{
    match make_room(&mut names.items, &mut kinds.items) {
        Ok(()) => {
            names.items.push_reserved(name);
            kinds.items.push_reserved(kind);
            Ok(())
        }
        Err(NoMemory) => Err(NoMemory),
    }
}

fn make_room(names: &mut Vec<Text>, kinds: &mut Vec<Kind>) -> Result<(), NoMemory>
    ensures same_names { names.new.items ≡ names.old.items }
    ensures same_kinds { kinds.new.items ≡ kinds.old.items }
    ensures names { OnOk result (vec_len names.new < vec_capacity names.new) }
    ensures kinds { OnOk result (vec_len kinds.new < vec_capacity kinds.new) }
{
    names.reserve(1)?;
    kinds.reserve(1)?;
    Ok(())
}
