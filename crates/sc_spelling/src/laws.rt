ghost use Rattle.std.specs.Prelude.{◌≡◌, Ok, List, ℕ, true};
ghost use Rattle.sc_value.specs.declared.message.Message.{Message};
ghost use Rattle.sc_tokens.specs.Tokens.{is_value};
ghost use Rattle.sc_grammar.specs.Written.{text_of_message};
ghost use Rattle.sc_syntax.specs.Messages.{message_of};
ghost use Rattle.sc_spelling.specs.Kept.{KeepsGrammar, HasBranch, HasRoom};
ghost use Rattle.sc_spelling.specs.SpelledLines.{IsValue};
ghost use Rattle.sc_spelling.specs.SpelledMessages.{IsSpelled};

/// A text is read as a message exactly where it spells it, so it spells one message at most. The
/// contract is the law, and the call does nothing.
pub fn spelled_exactly()
    ensures spelled { (text : List ℕ) (message : Message) → IsSpelled text message
        → message_of text ≡ Ok message }
    ensures read { (text : List ℕ) (message : Message) → message_of text ≡ Ok message
        → IsSpelled text message }
    ensures once { (text : List ℕ) (first second : Message) → IsSpelled text first
        → IsSpelled text second → first ≡ second }
{}

/// The written form of a message spells it, and is read as it again, for each message that keeps
/// the grammar, whose first Via has its branch, and that has at most 128 values. The contract is
/// the law, and the call does nothing.
pub fn written_is_spelled()
    ensures spelled { (message : Message) → KeepsGrammar message → HasBranch message
        → HasRoom message → IsSpelled (text_of_message message) message }
    ensures read { (message : Message) → KeepsGrammar message → HasBranch message → HasRoom message
        → message_of (text_of_message message) ≡ Ok message }
{}

/// A message that is read from a text keeps the grammar, and its first Via has its branch. So it is
/// read again from its written form, where that has at most 128 values. The contract is the law,
/// and the call does nothing.
pub fn read_keeps_grammar()
    ensures grammar { (text : List ℕ) (message : Message) → message_of text ≡ Ok message
        → KeepsGrammar message }
    ensures branch { (text : List ℕ) (message : Message) → message_of text ≡ Ok message
        → HasBranch message }
    ensures again { (text : List ℕ) (message : Message) → message_of text ≡ Ok message
        → HasRoom message → message_of (text_of_message message) ≡ Ok message }
{}

/// A text is the value of a header, one line without a blank at an end, exactly where the test for
/// it says so. The contract is the law, and the call does nothing.
pub fn value_is_trimmed()
    ensures trimmed { (text : List ℕ) → is_value text ≡ true → IsValue text }
    ensures tested { (text : List ℕ) → IsValue text → is_value text ≡ true }
{}
