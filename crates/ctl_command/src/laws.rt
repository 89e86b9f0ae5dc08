//! What may be relied on by whoever types a line. Each is a function without a body whose contract is what is proved.
ghost use Rattle.std.specs.Prelude.{ℕ, ◌≡◌, List, ◌∷◌, ◌++◌, [], Ok, Err, Some, true, false};
ghost use Rattle.pat_base.specs.declared.host.Host.{Host};
ghost use Rattle.pat_base.specs.declared.name.Name.{Name};
ghost use Rattle.ctl_command.specs.Commands.{CommandText};
ghost use Rattle.ctl_command.specs.Laws.{is_among, is_word_or_value_among, is_at_word, awaits_value, IsWholeOption, joined};
ghost use Rattle.ctl_command.specs.Reading.{command_of, said_in, is_said};
ghost use Rattle.ctl_command.specs.Tables.{command_named, value_option_named, option_text, force_text};
ghost use Rattle.ctl_command.specs.Texts.{SaidText, FaultText, Unknown, Extra};
ghost use Rattle.ctl_command.specs.declared.command_name.CommandName.{CommandName};
ghost use Rattle.ctl_command.specs.declared.option_name.ValueOption.{ValueOption};

/// `--force` at the end of a line that doesn't have it changes nothing.
pub fn force_changes_nothing()
    ensures { (cluster : Name) (members : List (Name × Host)) (words : List (List ℕ)) (asked : CommandText) → is_among force_text words ≡ false → command_of cluster members words ≡ Ok asked → command_of cluster members (words ++ force_text ∷ []) ≡ Ok asked }
{}

/// Two options that follow one another may change their places in a line that asks for something: it asks for the same.
pub fn options_stand_in_any_order()
    ensures { (cluster : Name) (members : List (Name × Host)) (command : CommandName) (word : List ℕ) (front back : List (List ℕ)) (option other : List ℕ) (said : SaidText) (asked : CommandText) → command_named word ≡ Some command → said_in command cluster members front ≡ Ok said → awaits_value said.place ≡ false → IsWholeOption option → IsWholeOption other → command_of cluster members (word ∷ (front ++ option ∷ other ∷ back)) ≡ Ok asked → command_of cluster members (word ∷ (front ++ other ∷ option ∷ back)) ≡ Ok asked }
{}

/// An option that the command takes and that isn't there yet reads as `--x v` and as `--x=v`, whatever the value is and
/// whatever follows: the line asks for the same, or has the same fault.
pub fn a_value_may_stand_in_the_same_word()
    ensures { (cluster : Name) (members : List (Name × Host)) (command : CommandName) (word : List ℕ) (front back : List (List ℕ)) (option : ValueOption) (value : List ℕ) (said : SaidText) → command_named word ≡ Some command → value_option_named command (option_text option) ≡ Some option → said_in command cluster members front ≡ Ok said → awaits_value said.place ≡ false → is_said option said ≡ false → command_of cluster members (word ∷ (front ++ option_text option ∷ value ∷ back)) ≡ command_of cluster members (word ∷ (front ++ joined option value ∷ back)) }
{}

/// What a fault calls unknown is one of the words, or what stands behind the `=` of one; what it calls extra is one of the
/// words.
pub fn faults_name_words()
    ensures unknown { (cluster : Name) (members : List (Name × Host)) (words : List (List ℕ)) (text : List ℕ) → command_of cluster members words ≡ Err (Unknown text) → is_word_or_value_among text words ≡ true }
    ensures extra { (cluster : Name) (members : List (Name × Host)) (words : List (List ℕ)) (text : List ℕ) → command_of cluster members words ≡ Err (Extra text) → is_among text words ≡ true }
{}

/// The first word at fault counts: whatever stands behind the words of a line that has such a fault, the fault stays.
pub fn the_first_word_at_fault_counts()
    ensures { (cluster : Name) (members : List (Name × Host)) (words more : List (List ℕ)) (fault : FaultText) → is_at_word fault ≡ true → command_of cluster members words ≡ Err fault → command_of cluster members (words ++ more) ≡ Err fault }
{}
