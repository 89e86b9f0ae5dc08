//! Laws of documents. Each is a function without a body whose contract is what is proved.
ghost use Rattle.std.specs.Prelude.{ℕ, ◌≡◌, List};
ghost use Rattle.svg.specs.Escaping.{escaped};
ghost use Rattle.svg.specs.Forests.{Forest, forest_text};
ghost use Rattle.svg.specs.Markup.{IsWellFormed, between, read_on};

/// The text of elements is well-formed, whatever stands in them: each element that is opened is closed.
pub fn forests_are_well_formed()
    ensures { (forest : Forest) → IsWellFormed (forest_text forest) }
{}

/// No byte of a text is read as markup: a reader stands behind it where it stood before.
pub fn no_markup_comes_of_text()
    ensures { (bytes : List ℕ) (open_names : List (List ℕ)) → read_on (between open_names) (escaped bytes) ≡ between open_names }
{}
