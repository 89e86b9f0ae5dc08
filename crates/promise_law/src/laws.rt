//! The law of what is played. Its function has no body: its contract is what is proved.
ghost use Rattle.script_model.specs.Script.{IsHead};
ghost use Rattle.run_model.specs.Run.{Played};
ghost use Rattle.promise_law.specs.Claims.{KeepsPromises};

/// Whatever is played of a head that a script may have keeps all promises, by whatever steps: those of a script, and those that connections
/// bring behind it.
pub fn runs_keep_promises()
    ensures { (played : Played) → IsHead played.head → KeepsPromises played }
{}
