//! The kinds that the cases run.

use sc_apps::Answers;
use sc_servlets::{Catalogue, SipServlet};
use sc_value::{NoMemory, Text};
use std::alloc::Global;
use std::test::Fail;

/// The catalogue of the kind `answer`.
pub fn catalogue(alloc: Global) -> Result<Catalogue, Fail> {
    let servlet: Box<dyn SipServlet> = Box::new(alloc, Answers)?;
    match Text::from_slice(alloc, b"answer") {
        Ok(name) => catalogue_of(alloc, name, servlet),
        Err(NoMemory) => {
            drop(servlet);
            Err(Fail::new("no memory for a name"))
        }
    }
}

/// The catalogue of one kind of this name.
pub fn catalogue_of(
    alloc: Global,
    name: Text,
    servlet: Box<dyn SipServlet>,
) -> Result<Catalogue, Fail> {
    let mut apps = Catalogue::new(alloc);
    match apps.add(name, servlet, None) {
        Ok(()) => Ok(apps),
        Err(_) => Err(Fail::new("the kind is refused")),
    }
}
