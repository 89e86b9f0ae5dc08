//! Laws of configurations. Each is a function without a body whose contract is what is proved.
ghost use Rattle.std.specs.Prelude.{ℕ, Bool, codes, ◌≡◌, ◌+◌, ◌*◌, ◌≤◌, List, length, Some, None, Ok};
ghost use Rattle.store_keys.specs.Settings.{Settings};
ghost use Rattle.serde_json.specs.Data.{Data, Members, null, object, unsigned};
ghost use Rattle.serde_json.specs.Find.{get_member, as_number};
ghost use Rattle.cluster_config.specs.ConfigLaws.{number_set, truth_set, IsDistinct, found_along, LeavesAlone};
ghost use Rattle.cluster_config.specs.ConfigMerging.{merged, patched};
ghost use Rattle.cluster_config.specs.ConfigReading.{json_of, config_read, config_patched, IsConfiguration};
ghost use Rattle.cluster_config.specs.SettingValues.{value_at, truth_value};
ghost use Rattle.cluster_config.specs.declared.setting.Setting.{Setting};

/// A patch changes what it names, and nothing else. An object has each of its names once.
pub fn patches_change_what_they_name()
    // The patch `{}` changes nothing.
    ensures nothing { (settings : Settings) → IsConfiguration settings → config_patched settings (codes "{}") ≡ Ok settings }
    // Null removes.
    ensures removes { (name : List ℕ) (present patch : Members) → IsDistinct present → IsDistinct patch
        → get_member name patch ≡ Some null → get_member name (merged present patch) ≡ None }
    // Where a name is patched by an object, what stood there is patched by it; anything else replaces.
    ensures named { (name : List ℕ) (present patch : Members) (value : Data) → IsDistinct present → IsDistinct patch
        → get_member name patch ≡ Some value → get_member name (merged present patch) ≡ patched (get_member name present) value }
    // A name that the patch doesn't have keeps its value.
    ensures unnamed { (name : List ℕ) (present patch : Members)
        → get_member name patch ≡ None → get_member name (merged present patch) ≡ get_member name present }
    // At every depth.
    ensures deep { (path : List (List ℕ)) (present patch : Members) (value : Data) → LeavesAlone path present patch
        → found_along path (object present) ≡ Some value → found_along path (object (merged present patch)) ≡ Some value }
{}

/// What a configuration that is read sets is the value at the setting's key. Where there is none, a number is the default
/// and a truth value false (`number_or`, `truth_or_false`).
pub fn settings_are_those_of_the_text()
    ensures numbers { (bytes : List ℕ) (json value : Data) (settings : Settings) (setting : Setting) (n : ℕ)
        → json_of bytes ≡ Some json → config_read bytes ≡ Ok settings → value_at setting json ≡ Some value
        → number_set setting settings.config ≡ Some n → as_number value ≡ Some (unsigned n) }
    ensures truths { (bytes : List ℕ) (json value : Data) (settings : Settings) (setting : Setting) (truth : Bool)
        → json_of bytes ≡ Some json → config_read bytes ≡ Ok settings → value_at setting json ≡ Some value
        → truth_set setting settings.config ≡ Some truth → truth_value value ≡ Some truth }
{}

/// Each configuration that is read keeps the rule on times; that its settings are within their ranges is part of what a
/// `Config` is.
pub fn configurations_keep_times()
    ensures { (bytes : List ℕ) (settings : Settings) → config_read bytes ≡ Ok settings
        → settings.config.loop_wait + 2 * settings.config.retry_timeout ≤ settings.config.ttl }
{}

/// The text of a configuration that is read is no longer than the bytes that it is read from, and is read as that
/// configuration.
pub fn texts_say_what_was_read()
    ensures no_longer { (bytes : List ℕ) (settings : Settings) → config_read bytes ≡ Ok settings → length settings.text ≤ length bytes }
    ensures read_again { (bytes : List ℕ) (settings : Settings) → config_read bytes ≡ Ok settings → IsConfiguration settings }
{}
