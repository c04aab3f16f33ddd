ghost use Rattle.std.specs.Prelude.{◌≡◌};

use sc_value::NoMemory;
use thiserror::Error;

/// Why a text is no script.
#[derive(Debug, Clone, Copy, PartialEq, Eq, Error)]
pub enum ScriptRefused {
    /// The text is no script that can be run. `at` is the place where it goes wrong, in bytes from
    /// 0, and `kind` is what is wrong there: 1 to 7, as [`crate::read_lines`] tells.
    #[error("the text is no script: fault {kind} at byte {at}")]
    Refused { at: usize, kind: u8 },
    /// There was no memory to read the text. It says nothing of the text.
    #[error("no memory")]
    NoMemory,
}

impl From<NoMemory> for ScriptRefused {
    ghost use Rattle.sc_script.specs.declared.refused.ScriptRefused.TheVariants.{NoMemory};

    ghost from_gives = { λ _ e. e ≡ NoMemory };

    fn from(_cause: NoMemory) -> ScriptRefused {
        ScriptRefused::NoMemory
    }
}
