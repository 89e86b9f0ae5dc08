//! Laws of JSON that was read, as text. Each is a function without a body whose contract is what is proved.
ghost use Rattle.std.specs.Prelude.{ℕ, true, false, ◌≡◌, ◌≤◌, List, length, Some};
ghost use Rattle.std.specs.Str.{is_utf8};
ghost use Rattle.serde_json.specs.Data.{Data};
ghost use Rattle.serde_json.specs.Read.{read};
ghost use Rattle.serde_json.specs.Written.{compact_text, has_float};

/// The compact text of a JSON value is no longer than the bytes that it was read from.
pub fn compact_texts_are_no_longer()
    ensures { (bytes : List ℕ) (value : Data) → read bytes ≡ Some value → length (compact_text value) ≤ length bytes }
{}

/// The compact text of a JSON value that was read and has no float is UTF-8, and is read as that value.
pub fn compact_texts_are_read_again()
    ensures { (bytes : List ℕ) (value : Data) → is_utf8 bytes ≡ true → read bytes ≡ Some value → has_float value ≡ false
        → (is_utf8 (compact_text value) ≡ true) × (read (compact_text value) ≡ Some value) }
{}
