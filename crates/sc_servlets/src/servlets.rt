//! Servlets and listeners: the application's code.

ghost use Rattle.std.specs.Prelude.{◌≡◌, [], false};
ghost use Rattle.sc_terms.specs.declared.charters.Charter.{Charter};
ghost use Rattle.sc_terms.specs.declared.charters.ListenerCharter.{ListenerCharter};
ghost use Rattle.sc_servlets.specs.Brought.{Meets, Promises, ListenerPromises};

use sc_terms::{Charter, End, Event, ListenerCharter};
use sc_turn::Turn;

/// A servlet (JSR 289 section 3). It works on the turn alone, so its turn is a matter of what it is
/// shown.
pub trait SipServlet: Send + Sync + Drop {
    /// The charter that it keeps.
    ghost stated: { Self → Charter };

    /// Its charter.
    fn charter(&self) -> Charter
        ensures { result ≡ stated self.now };

    /// Whether each of its turns takes so little time that a server makes it itself: handing it to a
    /// worker would cost more. Turns of others are lent to workers, so that they hold up nothing
    /// else.
    fn is_short(&self) -> bool {
        false
    }

    /// Handles an event. The turn comes with no calls made. A turn that doesn't end as `Starved`
    /// has the calls and the end that the charter promises.
    fn turn(&self, t: &mut Turn, e: &Event) -> End
        requires calls { t.old.calls ≡ [] }
        requires memory { t.old.starved ≡ false }
        ensures same { t.new.shown ≡ t.old.shown }
        ensures promised { Meets result (Promises (stated self.now) t.old.shown e.now t.new.calls result) };
}

/// A listener of an application: it is told what happens to its application sessions (JSR 289
/// section 9). It works on the turn alone.
pub trait Listener: Send + Sync + Drop {
    /// The charter that it keeps.
    ghost listens: { Self → ListenerCharter };

    /// Its charter.
    fn charter(&self) -> ListenerCharter
        ensures { result ≡ listens self.now };

    /// Whether each of its turns takes as little time as [`SipServlet::is_short`] says.
    fn is_short(&self) -> bool {
        false
    }

    /// The application session has expired (JSR 289 section 6.1.2.1). The turn comes with no calls
    /// made.
    fn expired(&self, t: &mut Turn) -> End
        requires calls { t.old.calls ≡ [] }
        requires memory { t.old.starved ≡ false }
        ensures same { t.new.shown ≡ t.old.shown }
        ensures promised { Meets result (ListenerPromises (listens self.now) t.old.shown Event.Expired t.new.calls result) };

    /// The application session is ready to go away (JSR 289 section 6.1.2.2). The turn comes with
    /// no calls made.
    fn ready(&self, t: &mut Turn) -> End
        requires calls { t.old.calls ≡ [] }
        requires memory { t.old.starved ≡ false }
        ensures same { t.new.shown ≡ t.old.shown }
        ensures promised { Meets result (ListenerPromises (listens self.now) t.old.shown Event.Ready t.new.calls result) };
}
