//! What each part of a head keeps, told of a part that is lent (RFC 3261 section 25.1).

ghost use Rattle.sc_value.specs.UriValues.{IsSip};
ghost use Rattle.sc_value.specs.AddressValues.{IsUri, IsAddress};
ghost use Rattle.sc_value.specs.ContactRules.{IsContact};
ghost use Rattle.sc_value.specs.ViaValues.{IsVia};
ghost use Rattle.sc_value.specs.SequenceValues.{IsCSeq};

use crate::{Address, CSeq, Contact, SipUri, Uri, Via};

impl SipUri {
    /// Its host is one, its texts are open, no `@` stands where it would be read as another's end,
    /// and its parameters have bytes of parameters.
    pub fn known(&self)
        ensures { IsSip self.now }
    {
        let _ = &self.host;
    }
}

impl Uri {
    /// It is a `sip:` URI in its parts, or an open text of another scheme.
    #[tactic(auto, unfolding(crate::specs::AddressValues::IsUri))]
    pub fn known(&self)
        ensures { IsUri self.now }
    {
        match self {
            Uri::Sip(uri) => uri.get().known(),
            Uri::Other(text) => text.known(),
        }
    }
}

impl Address {
    /// Its display is one, its URI keeps its rule, and its parameters are those of a header.
    pub fn known(&self)
        ensures { IsAddress self.now }
    {
        let _ = &self.uri;
    }
}

impl Contact {
    /// It is `*`, or an address that keeps its rule.
    #[tactic(auto, unfolding(crate::specs::ContactRules::IsContact))]
    pub fn known(&self)
        ensures { IsContact self.now }
    {
        match self {
            Contact::Star => (),
            Contact::At(address) => address.known(),
        }
    }
}

impl Via {
    /// Its transport is a token, its host one, and its parameters are those of a header.
    pub fn known(&self)
        ensures { IsVia self.now }
    {
        let _ = &self.host;
    }
}

impl CSeq {
    /// Its number is below 2^31, and its method a token.
    pub fn known(&self)
        ensures { IsCSeq self.now }
    {
        let _ = &self.method;
    }
}
