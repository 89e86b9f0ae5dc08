//! Laws of what is asked for. Each is a function without a body whose contract is what is proved.
ghost use Rattle.std.specs.Prelude.{ℕ, ◌≡◌, ◌≢◌, ◌++◌, codes, List, Contains, false, Some};
ghost use Rattle.std.specs.List.{IsDistinct};
ghost use Rattle.std.specs.Map.{keys_of};
ghost use Rattle.std.specs.Str.{bytes_eq};
ghost use Rattle.rest_paths.specs.Asking.{ask_of};
ghost use Rattle.rest_paths.specs.Laws.{IsKnown, IsSafe, changes_something};
ghost use Rattle.rest_paths.specs.Paths.{path_table, resource_at};
ghost use Rattle.rest_paths.specs.declared.asking.Ask.TheVariants.{NotFound};
ghost use Rattle.rest_paths.specs.declared.resource.Resource.{Resource};
ghost use Rattle.rest_message.specs.Targets as targets;
ghost use Rattle.rest_message.specs.declared.verb.Verb.{Verb};
ghost use Rattle.rest_message.specs.declared.verb.Verb.TheVariants.{Head, Options};

/// A query changes nothing of what is asked for: a target asks for the same with any query behind it.
pub fn queries_change_nothing()
    ensures { (verb : Verb) (target query : List ℕ)
        → ask_of verb (targets.path_of (target ++ (codes "?" ++ query))) ≡ ask_of verb (targets.path_of target) }
{}

/// An unknown path is not found, whatever the method.
pub fn unknown_paths_are_not_found()
    ensures { (verb : Verb) (path : List ℕ) → (IsKnown path → ⊥) → ask_of verb path ≡ NotFound }
{}

/// A known path never is: with a method that it doesn't have it is not allowed.
pub fn known_paths_are_found()
    ensures { (verb : Verb) (path : List ℕ) → IsKnown path → ask_of verb path ≢ NotFound }
{}

/// Each path of the table stands for what its row says: no two rows have one path.
pub fn paths_stand_for_themselves()
    ensures found { (path : List ℕ) (resource : Resource)
        → Contains path_table (path, resource) → resource_at path ≡ Some resource }
    ensures distinct { IsDistinct bytes_eq (keys_of path_table) }
{}

/// `OPTIONS` asks for the same as `HEAD`, on each path.
pub fn options_ask_as_heads_do()
    ensures { (path : List ℕ) → ask_of Options path ≡ ask_of Head path }
{}

/// `GET`, `HEAD` and `OPTIONS` ask for no change, as safe methods (RFC 9110, section 9.2.1).
pub fn safe_methods_change_nothing()
    ensures { (verb : Verb) (path : List ℕ) → IsSafe verb → changes_something (ask_of verb path) ≡ false }
{}
