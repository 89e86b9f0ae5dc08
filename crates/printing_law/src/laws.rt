//! Laws between printing and reading. Each is a function without a body whose contract is what is proved.
ghost use Rattle.std.specs.Prelude.{Bool};
ghost use Rattle.event_book.specs.Text.{line_of};
ghost use Rattle.event_book.specs.declared.event.Event.{Event};
ghost use Rattle.printing_law.specs.Events.{AreNumbers, IsReadAgain, told_in};

/// The printed line of an event that is drawn is read as that event again: its moment, of whom it is, and what happened. Its numbers
/// are those of its types.
pub fn printed_is_read_again()
    ensures { (trace : Bool) (event : Event) → AreNumbers event → IsReadAgain (line_of trace event) (told_in event) }
{}
