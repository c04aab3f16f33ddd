ghost use Rattle.std.specs.Prelude.{◌≡◌, List, ◌∷◌};
ghost use Rattle.sc_model.specs.Dialogs.{Beginning, DialogState, Follows, Passed, dialog_of};
ghost use Rattle.sc_hosts.specs.Legs.{with_target};

/// A leg keeps the state of its dialog and moves it by each message, where RFC 3261 section 12
/// tells what the state is by all the messages that passed: the target is the one that the peer
/// gave last, and each side's sequence number is the greatest so far. The two agree. Whatever began
/// the dialog and whatever passed since, the state of that list, moved by a message more, is the
/// state of the list with this message as its newest; so a state that is moved always follows the
/// one before. The contract is the law, and the call does nothing.
pub fn dialogs_are_of_their_messages()
    ensures moved { (beginning : Beginning) (later : List Passed) (message : Passed)
        → with_target (dialog_of beginning later) message ≡ dialog_of beginning (message ∷ later) }
    ensures follows { (state : DialogState) (message : Passed)
        → Follows state message (with_target state message) }
{}
