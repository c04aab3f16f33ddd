//! The listener that gives an application session more time.

ghost use Rattle.std.specs.Prelude.{◌≡◌, ◌+◌, ◌<◌, [], false, is_some, pos, IfOk, OnOk};
ghost use Rattle.sc_terms.specs.declared.charters.ListenerCharter.{ListenerCharter};
ghost use Rattle.sc_hosts.specs.Scripting.{attribute, only, then_make};
ghost use Rattle.sc_hosts.specs.Charters.{extend_script, extended_name, extended_value};
ghost use Rattle.sc_hosts.specs.RefusalParts.{MOST_CALLS};
ghost use Rattle.sc_turn.specs.Working.{play_of};
ghost use Rattle.sc_apps.specs.Scripted.{IsMade, IsPlayed};

use crate::ending::ended;
use crate::keeping::{set_attribute, set_expires};
use crate::reading::{attribute, memory_of, shown};
use sc_servlets::Listener;
use sc_terms::{Call, CallAnswer, End, Event, ListenerCharter, View};
use sc_turn::Turn;
use sc_value::{NoMemory, Text};

/// At the first expiry of an application session gives it three minutes more (JSR 289 section
/// 6.1.2.1): it sets the attribute `ext` to `1`, and where that is set already, lets the session
/// expire. When the session is ready to go away it makes no call. It has no parameters.
#[derive(Clone, Copy, Debug)]
pub struct ExtendsOnce;

impl Listener for ExtendsOnce {
    ghost listens = { λ _. ListenerCharter.ExtendOnce };

    fn charter(&self) -> ListenerCharter {
        ListenerCharter::ExtendOnce
    }

    fn is_short(&self) -> bool {
        true
    }

    #[tactic(auto, unfolding(sc_servlets::specs::Brought::ListenerPromises, sc_hosts::specs::Bringing::listener_script), using(crate::proofs::Playing::keeps))]
    fn expired(&self, t: &mut Turn) -> End {
        ended(extend(t))
    }

    #[tactic(auto, unfolding(sc_servlets::specs::Brought::ListenerPromises, sc_hosts::specs::Bringing::listener_script), using(crate::proofs::Playing::keeps))]
    fn ready(&self, t: &mut Turn) -> End {
        ended(pass_over(t))
    }
}

#[tactic(auto, unfolding(sc_hosts::specs::Charters::extend_script), using(crate::proofs::Playing::played_done))]
fn pass_over(t: &mut Turn) -> Result<(), NoMemory>
    ensures same { t.new.shown ≡ t.old.shown }
    ensures played { OnOk result (IsPlayed (extend_script t.old.shown Event.Ready) t.old t.new) }
{
    Ok(())
}

#[tactic(auto, unfolding(sc_hosts::specs::Charters::extended_name))]
fn is_extended(view: &View) -> bool
    ensures { result ≡ is_some (attribute extended_name view.entry.now) }
{
    attribute(view, b"ext").is_some()
}

#[tactic(auto, unfolding(sc_hosts::specs::Charters::extend_script), using(crate::proofs::Playing::played_done, crate::proofs::Playing::begun_room))]
fn extend(t: &mut Turn) -> Result<(), NoMemory>
    requires calls { t.old.calls ≡ [] }
    requires memory { t.old.starved ≡ false }
    ensures same { t.new.shown ≡ t.old.shown }
    ensures played { OnOk result (IsPlayed (extend_script t.old.shown Event.Expired) t.old t.new) }
{
    if is_extended(shown(t)) {
        return Ok(());
    }
    mark_and_extend(t)
}

#[tactic(auto, using(crate::proofs::Playing::played_then))]
fn mark_and_extend(t: &mut Turn) -> Result<(), NoMemory>
    requires { (play_of t.old).listed + 1 < MOST_CALLS }
    ensures same { t.new.shown ≡ t.old.shown }
    ensures played { OnOk result
        (IsPlayed
        (then_make (Call.SetAttribute extended_name extended_value)
        (only (Call.SetExpires (pos 3)))) t.old t.new) }
{
    mark(t)?;
    three_minutes(t)
}

#[tactic(auto, unfolding(sc_hosts::specs::Charters::extended_name, sc_hosts::specs::Charters::extended_value))]
fn mark(t: &mut Turn) -> Result<CallAnswer, NoMemory>
    requires { (play_of t.old).listed < MOST_CALLS }
    ensures same { t.new.shown ≡ t.old.shown }
    ensures made { IfOk result
        (λ given. IsMade (Call.SetAttribute extended_name extended_value) t.old given t.new) }
    ensures listed { OnOk result ((play_of t.new).listed ≡ (play_of t.old).listed + 1) }
{
    let name = Text::from_slice(memory_of(t), b"ext")?;
    let value = Text::from_slice(memory_of(t), b"1")?;
    set_attribute(t, name, value)
}

#[tactic(auto, using(crate::proofs::Playing::played_only))]
fn three_minutes(t: &mut Turn) -> Result<(), NoMemory>
    requires { (play_of t.old).listed < MOST_CALLS }
    ensures same { t.new.shown ≡ t.old.shown }
    ensures played { OnOk result (IsPlayed (only (Call.SetExpires (pos 3))) t.old t.new) }
{
    set_expires(t, 3)?;
    Ok(())
}
