//! The upgrade of a script.
ghost use Rattle.std.specs.Prelude.{◌≡◌};

use vq_model::script::Script;

/// The script as one of the second version, whose limits are the larger ones. All else stays, and no memory is taken.
pub fn upgrade(script: Script) -> Script
    ensures { result ≡ record script { version = 2 } }
{
    let mut script = script;
    script.version = 2;
    script
}
