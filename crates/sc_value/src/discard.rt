use crate::{Address, Head, Message, Request, Response, Sent, Uri};

/// A value that is let go of by one call. A large value is let go of by this call wherever a
/// function may leave early, so that the function's proof has one step for it and not one a field.
pub trait Discard {
    /// Lets go of the value and all its memory.
    fn discard(self);
}

impl Discard for Uri {
    fn discard(self) {
        drop(self);
    }
}

impl Discard for Address {
    fn discard(self) {
        drop(self);
    }
}

impl Discard for Head {
    fn discard(self) {
        drop(self);
    }
}

impl Discard for Request {
    fn discard(self) {
        drop(self);
    }
}

impl Discard for Response {
    fn discard(self) {
        drop(self);
    }
}

impl Discard for Message {
    fn discard(self) {
        drop(self);
    }
}

impl Discard for Sent {
    fn discard(self) {
        drop(self);
    }
}
