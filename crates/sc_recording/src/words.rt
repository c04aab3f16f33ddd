//! Longer words of recordings.

ghost use Rattle.std.specs.Prelude.{◌≡◌};
ghost use Rattle.sc_recording.specs.CallTexts.{b2b_respond_word, create_in_dialog_word, create_request_word, invalidate_application_word, invalidate_session_word, set_attribute_word, set_ready_flag_word, wrong_state_word};

#[tactic(auto, unfolding(crate::specs::CallTexts::create_request_word))]
pub fn create_request() -> &'static [u8]
    ensures { result.now ≡ create_request_word }
{
    b"create_request"
}

#[tactic(auto, unfolding(crate::specs::CallTexts::create_in_dialog_word))]
pub fn create_in_dialog() -> &'static [u8]
    ensures { result.now ≡ create_in_dialog_word }
{
    b"create_in_dialog"
}

#[tactic(auto, unfolding(crate::specs::CallTexts::b2b_respond_word))]
pub fn b2b_respond() -> &'static [u8]
    ensures { result.now ≡ b2b_respond_word }
{
    b"b2b_respond"
}

#[tactic(auto, unfolding(crate::specs::CallTexts::set_attribute_word))]
pub fn set_attribute() -> &'static [u8]
    ensures { result.now ≡ set_attribute_word }
{
    b"set_attribute"
}

#[tactic(auto, unfolding(crate::specs::CallTexts::set_ready_flag_word))]
pub fn set_ready_flag() -> &'static [u8]
    ensures { result.now ≡ set_ready_flag_word }
{
    b"set_ready_flag"
}

#[tactic(auto, unfolding(crate::specs::CallTexts::invalidate_session_word))]
pub fn invalidate_session() -> &'static [u8]
    ensures { result.now ≡ invalidate_session_word }
{
    b"invalidate_session"
}

#[tactic(auto, unfolding(crate::specs::CallTexts::invalidate_application_word))]
pub fn invalidate_application() -> &'static [u8]
    ensures { result.now ≡ invalidate_application_word }
{
    b"invalidate_application"
}

#[tactic(auto, unfolding(crate::specs::CallTexts::wrong_state_word))]
pub fn wrong_state() -> &'static [u8]
    ensures { result.now ≡ wrong_state_word }
{
    b"wrong_state"
}
