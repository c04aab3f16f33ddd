//! Copies and comparisons of the parts of a head, all of whose texts are copied and compared.

use crate::{Address, CSeq, CloneIn, Contact, Field, NoMemory, Param, Same, SipUri, Uri, Via};
use std::alloc::Global;

impl CloneIn for Param {
    fn clone_in(&self, alloc: Global) -> Result<Param, NoMemory> {
        Ok(Param {
            name: self.name.clone_in(alloc)?,
            value: self.value.clone_in(alloc)?,
        })
    }
}

impl Same for Param {
    fn same(&self, other: &Param) -> bool {
        self.name.same(&other.name) && self.value.same(&other.value)
    }
}

impl CloneIn for SipUri {
    fn clone_in(&self, alloc: Global) -> Result<SipUri, NoMemory> {
        Ok(SipUri {
            user: self.user.clone_in(alloc)?,
            host: self.host.clone_in(alloc)?,
            port: self.port,
            params: self.params.clone_in(alloc)?,
            headers: self.headers.clone_in(alloc)?,
        })
    }
}

impl Same for SipUri {
    fn same(&self, other: &SipUri) -> bool {
        self.user.same(&other.user)
            && self.host.same(&other.host)
            && self.port.same(&other.port)
            && self.params.same(&other.params)
            && self.headers.same(&other.headers)
    }
}

impl CloneIn for Address {
    fn clone_in(&self, alloc: Global) -> Result<Address, NoMemory> {
        Ok(Address {
            display: self.display.clone_in(alloc)?,
            uri: self.uri.clone_in(alloc)?,
            params: self.params.clone_in(alloc)?,
        })
    }
}

impl Same for Address {
    fn same(&self, other: &Address) -> bool {
        self.display.same(&other.display)
            && self.uri.same(&other.uri)
            && self.params.same(&other.params)
    }
}

impl CloneIn for Via {
    fn clone_in(&self, alloc: Global) -> Result<Via, NoMemory> {
        Ok(Via {
            transport: self.transport.clone_in(alloc)?,
            host: self.host.clone_in(alloc)?,
            port: self.port,
            params: self.params.clone_in(alloc)?,
        })
    }
}

impl Same for Via {
    fn same(&self, other: &Via) -> bool {
        self.transport.same(&other.transport)
            && self.host.same(&other.host)
            && self.port.same(&other.port)
            && self.params.same(&other.params)
    }
}

impl CloneIn for CSeq {
    fn clone_in(&self, alloc: Global) -> Result<CSeq, NoMemory> {
        Ok(CSeq {
            number: self.number,
            method: self.method.clone_in(alloc)?,
        })
    }
}

impl Same for CSeq {
    fn same(&self, other: &CSeq) -> bool {
        self.number == other.number && self.method.same(&other.method)
    }
}

impl CloneIn for Field {
    fn clone_in(&self, alloc: Global) -> Result<Field, NoMemory> {
        Ok(Field {
            name: self.name.clone_in(alloc)?,
            value: self.value.clone_in(alloc)?,
        })
    }
}

impl Same for Field {
    fn same(&self, other: &Field) -> bool {
        self.name.same(&other.name) && self.value.same(&other.value)
    }
}

impl CloneIn for Uri {
    fn clone_in(&self, alloc: Global) -> Result<Uri, NoMemory> {
        match self {
            Uri::Sip(uri) => Ok(Uri::Sip(uri.clone_in(alloc)?)),
            Uri::Other(text) => Ok(Uri::Other(text.clone_in(alloc)?)),
        }
    }
}

impl Same for Uri {
    fn same(&self, other: &Uri) -> bool {
        match (self, other) {
            (Uri::Sip(a), Uri::Sip(b)) => a.same(b),
            (Uri::Other(a), Uri::Other(b)) => a.same(b),
            (Uri::Sip(_), Uri::Other(_)) | (Uri::Other(_), Uri::Sip(_)) => false,
        }
    }
}

impl CloneIn for Contact {
    fn clone_in(&self, alloc: Global) -> Result<Contact, NoMemory> {
        match self {
            Contact::Star => Ok(Contact::Star),
            Contact::At(address) => Ok(Contact::At(address.clone_in(alloc)?)),
        }
    }
}

impl Same for Contact {
    fn same(&self, other: &Contact) -> bool {
        match (self, other) {
            (Contact::Star, Contact::Star) => true,
            (Contact::At(a), Contact::At(b)) => a.same(b),
            (Contact::Star, Contact::At(_)) | (Contact::At(_), Contact::Star) => false,
        }
    }
}
