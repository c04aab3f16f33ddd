//! Copies of what passes transactions.

use crate::{ClientItem, ServerItem};
use sc_value::{CloneIn, NoMemory};
use std::alloc::Global;

impl CloneIn for ClientItem {
    fn clone_in(&self, _alloc: Global) -> Result<ClientItem, NoMemory> {
        Ok(*self)
    }
}

impl CloneIn for ServerItem {
    fn clone_in(&self, _alloc: Global) -> Result<ServerItem, NoMemory> {
        Ok(*self)
    }
}
