//! How a turn ends.

ghost use Rattle.std.specs.Prelude.{◌≡◌};
ghost use Rattle.sc_apps.specs.Scripted.{end_of_script};

use sc_terms::End;
use sc_value::NoMemory;

/// A turn that played its script ends well; one that wanted memory can be made again.
#[tactic(auto, unfolding(crate::specs::Scripted::end_of_script))]
pub fn ended(played: Result<(), NoMemory>) -> End
    ensures { result ≡ end_of_script played }
{
    match played {
        Ok(()) => End::Fine,
        Err(NoMemory) => End::Starved,
    }
}
