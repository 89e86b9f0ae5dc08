//! What may be relied on of each generated script. Each is a function without a body whose contract is what is proved.
ghost use Rattle.std.specs.Prelude.{ℕ, ◌≤◌, ◌≡◌, ◌+◌, ◌*◌, length, None, Ok};
ghost use Rattle.script_grammar.specs.Limits.{limit_of};
ghost use Rattle.script_grammar.specs.Reading.{script_of};
ghost use Rattle.script_model.specs.Script.{IsScript, script_lines, spelling_of};
ghost use Rattle.script_model.specs.Ticks.{total_ticks};
ghost use Rattle.generator_model.specs.Drawing.{greatest_amount};
ghost use Rattle.generator_model.specs.Generating.{ticks_before, ticks_behind, generated_script};
ghost use Rattle.generator_model.specs.Laws.{opening_lines, most_generated_ticks};
ghost use Rattle.generator_model.specs.declared.bounds.TheConstants.{MOST_GENERATED};

/// Whatever the number, and however many lines are drawn, what is generated is a script.
pub fn generated_is_a_script()
    ensures { (seed count : ℕ) → IsScript (generated_script seed count) }
{}

/// It has the lines that are drawn and six more, and at most 400 ticks for each line that is drawn beside those of its first run
/// and its last. So none that is generated has more than 960,700 ticks, of 100 ms, and its canonical spelling passes no limit.
pub fn generated_is_within_limits()
    ensures lines { (seed count : ℕ) → length (script_lines (generated_script seed count)) ≡ opening_lines + count }
    ensures ticks { (seed count : ℕ) → total_ticks (generated_script seed count).body ≤ ticks_before + ticks_behind + greatest_amount * count }
    ensures most { (seed count : ℕ) → count ≤ MOST_GENERATED → total_ticks (generated_script seed count).body ≤ most_generated_ticks }
    ensures within { (seed count : ℕ) → count ≤ MOST_GENERATED → limit_of 0 (spelling_of (generated_script seed count)) ≡ None }
{}

/// The canonical spelling of what is generated is read as it.
pub fn generated_is_read()
    ensures { (seed count : ℕ) → script_of (spelling_of (generated_script seed count)) ≡ Ok (generated_script seed count) }
{}
