//! What the parts of a message are made of, as bytes: tokens, names, numbers, hosts, quoted strings
//! (RFC 3261 section 25.1). Definitions alone, in `specs/`.
#![tactic(auto)]
