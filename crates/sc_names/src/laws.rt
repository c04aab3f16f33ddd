ghost use Rattle.std.specs.Prelude.{◌≡◌, ◌≢◌, ℕ};
ghost use Rattle.sc_value.specs.declared.ids.AppId.{AppId};
ghost use Rattle.sc_tokens.specs.Bytes.{Bytes};
ghost use Rattle.sc_grammar.specs.Written.{sip_uri_text};
ghost use Rattle.sc_model.specs.Names.{IsOf64, tag_text, branch_text, call_id_text, edge_tag, ap_value, session_uri};

/// Two equal names of one kind, drawn with one salt, are made of the same epoch, session and
/// number, and the tag of an answer that no session gives is the tag of no session. The contract is
/// the law, and the call does nothing.
pub fn names_are_apart()
    ensures branches { (salt : Bytes) (e f : ℕ) (a b : AppId) (k m : ℕ) → IsOf64 e a k
        → IsOf64 f b m → branch_text salt e a k ≡ branch_text salt f b m
        → (e ≡ f) × (a ≡ b) × (k ≡ m) }
    ensures tags { (salt : Bytes) (e f : ℕ) (a b : AppId) (k m : ℕ) → IsOf64 e a k → IsOf64 f b m
        → tag_text salt e a k ≡ tag_text salt f b m → (e ≡ f) × (a ≡ b) × (k ≡ m) }
    ensures call_ids { (salt host : Bytes) (e f : ℕ) (a b : AppId) (k m : ℕ) → IsOf64 e a k
        → IsOf64 f b m → call_id_text salt e host a k ≡ call_id_text salt f host b m
        → (e ≡ f) × (a ≡ b) × (k ≡ m) }
    ensures sessions { (e f : ℕ) (a b : AppId) → IsOf64 e a 0 → IsOf64 f b 0
        → ap_value e a ≡ ap_value f b → (e ≡ f) × (a ≡ b) }
    ensures uris { (host : Bytes) (port e f : ℕ) (a b : AppId) → IsOf64 e a 0 → IsOf64 f b 0
        → sip_uri_text (session_uri host port e a) ≡ sip_uri_text (session_uri host port f b)
        → (e ≡ f) × (a ≡ b) }
    ensures edge { (salt : Bytes) (e : ℕ) (a : AppId) (k : ℕ) → IsOf64 e a k
        → edge_tag salt ≢ tag_text salt e a k }
{}
