ghost use Rattle.std.specs.Prelude.{◌≡◌, ◌<◌, ◌^◌, ◌∷◌, [], ℕ, Some, decimal};
ghost use Rattle.sc_value.specs.declared.parts.Via.{Via};
ghost use Rattle.sc_value.specs.declared.parts.Address.{Address};
ghost use Rattle.sc_value.specs.declared.parts.Contact.{Contact};
ghost use Rattle.sc_value.specs.declared.parts.CSeq.{CSeq};
ghost use Rattle.sc_grammar.specs.Written.{address_text, contact_text, cseq_text, via_text};
ghost use Rattle.sc_tokens.specs.Numbers.{number_of};
ghost use Rattle.sc_syntax.specs.Vias.{vias_of};
ghost use Rattle.sc_syntax.specs.Addresses.{address_of, addresses_of, contacts_of};
ghost use Rattle.sc_syntax.specs.Sequences.{cseq_of, hops_of};
ghost use Rattle.sc_value.specs.SequenceValues.{IsCSeq};
ghost use Rattle.sc_value.specs.ViaValues.{IsVia};
ghost use Rattle.sc_value.specs.AddressValues.{IsAddress};
ghost use Rattle.sc_value.specs.ContactRules.{IsContact};

/// The written form of a value that keeps the grammar's rules is read as this value, and as no
/// other (RFC 3261 section 25.1). The contract is the law, and the call does nothing.
pub fn written_is_read()
    ensures vias { (via : Via) → IsVia via → vias_of (via_text via) ≡ Some (via ∷ []) }
    ensures address { (address : Address) → IsAddress address
        → address_of (address_text address) ≡ Some address }
    ensures addresses { (address : Address) → IsAddress address
        → addresses_of (address_text address) ≡ Some (address ∷ []) }
    ensures contacts { (contact : Contact) → IsContact contact
        → contacts_of (contact_text contact) ≡ Some (contact ∷ []) }
    ensures hops { (hops : ℕ) → hops < 256 → hops_of (decimal hops) ≡ Some hops }
    ensures len { (len : ℕ) → len < 2 ^ 64 → number_of (decimal len) ≡ Some len }
    ensures cseq { (cseq : CSeq) → IsCSeq cseq → cseq_of (cseq_text cseq) ≡ Some cseq }
{}
