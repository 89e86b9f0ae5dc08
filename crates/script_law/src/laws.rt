//! What is read is spelled so, what is spelled so is read, and what is within the limits has few ticks and lines.
ghost use Rattle.std.specs.Prelude.{ℕ, ◌≡◌, ◌≤◌, ◌+◌, List, length, None, Ok};
ghost use Rattle.cluster_config.specs.ConfigReading.{IsConfiguration};
ghost use Rattle.script_model.specs.Script.{ScriptText, IsScript, IsShort, config_text, spelling_of};
ghost use Rattle.script_model.specs.Spelling.{Spells};
ghost use Rattle.script_model.specs.Ticks.{total_ticks};
ghost use Rattle.script_grammar.specs.Limits.{limit_of, most_lines, most_ticks};
ghost use Rattle.script_grammar.specs.Reading.{script_of};

/// What is read as a script is one, and is spelled so.
pub fn read_is_spelled()
    ensures { (bytes : List ℕ) (text : ScriptText) → script_of bytes ≡ Ok text → IsScript text × Spells bytes text }
{}

/// What is spelled as a script is read as it.
pub fn spelled_is_read()
    ensures { (bytes : List ℕ) (text : ScriptText) → IsScript text → Spells bytes text → script_of bytes ≡ Ok text }
{}

/// The bytes of a script's lines and nothing else are read as it: where it was read itself, and else where its configuration is
/// what its text says, as that of each script that was read is, and the line of that text isn't too long.
pub fn canonical_spelling_is_read()
    ensures again { (bytes : List ℕ) (text : ScriptText) → script_of bytes ≡ Ok text → Spells (spelling_of text) text × (script_of (spelling_of text) ≡ Ok text) }
    ensures readable { (text : ScriptText) → IsScript text → IsConfiguration text.head.config → IsShort (config_text text.head.config.text) → Spells (spelling_of text) text × (script_of (spelling_of text) ≡ Ok text) }
{}

/// A script within the limits has at most 1,000,000 ticks, of 100 ms, with those that come beside its own, and a body of at
/// most 100,000 lines.
pub fn within_limits()
    ensures { (waited : ℕ) (bytes : List ℕ) (text : ScriptText) → script_of bytes ≡ Ok text → limit_of waited bytes ≡ None → (total_ticks text.body + waited ≤ most_ticks) × (length text.body ≤ most_lines) }
{}
