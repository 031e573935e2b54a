//! What callers know of the derived traits, at each type of `ether_text`. These functions are proved and never run.
ghost use Rattle.std.specs.Prelude.{◌≡◌, ◌↔◌, IsTrue};

use ether_output::OutputFault;
use ether_text::tool::command::Command;
use ether_text::tool::mode::{Mode, Usage};
use ether_text::tool::outcome::{LastLine, ToolFault};
use ether_text::{InputFault, Verdict};

/// A clone is `Ok` and equals its source.
pub fn clones()
    ensures input_fault { let it = ⟦<InputFault as Clone>⟧ in
        (a b : _) → it.is_infallible a × (it.is_clone a b → b ≡ a) }
    ensures output_fault { let it = ⟦<OutputFault as Clone>⟧ in
        (a b : _) → it.is_infallible a × (it.is_clone a b → b ≡ a) }
    ensures verdict { let it = ⟦<Verdict as Clone>⟧ in (a b : _) → it.is_infallible a × (it.is_clone a b → b ≡ a) }
    ensures mode { let it = ⟦<Mode as Clone>⟧ in (a b : _) → it.is_infallible a × (it.is_clone a b → b ≡ a) }
    ensures usage { let it = ⟦<Usage as Clone>⟧ in (a b : _) → it.is_infallible a × (it.is_clone a b → b ≡ a) }
    ensures command { let it = ⟦<Command as Clone>⟧ in (a b : _) → it.is_infallible a × (it.is_clone a b → b ≡ a) }
    ensures last_line { let it = ⟦<LastLine as Clone>⟧ in (a b : _) → it.is_infallible a × (it.is_clone a b → b ≡ a) }
{}

/// `==` is equality.
pub fn equality()
    ensures input_fault { (a b : _) → IsTrue (⟦<InputFault as PartialEq>⟧.eq a b) ↔ (a ≡ b) }
    ensures output_fault { (a b : _) → IsTrue (⟦<OutputFault as PartialEq>⟧.eq a b) ↔ (a ≡ b) }
    ensures verdict { (a b : _) → IsTrue (⟦<Verdict as PartialEq>⟧.eq a b) ↔ (a ≡ b) }
    ensures mode { (a b : _) → IsTrue (⟦<Mode as PartialEq>⟧.eq a b) ↔ (a ≡ b) }
    ensures usage { (a b : _) → IsTrue (⟦<Usage as PartialEq>⟧.eq a b) ↔ (a ≡ b) }
    ensures last_line { (a b : _) → IsTrue (⟦<LastLine as PartialEq>⟧.eq a b) ↔ (a ≡ b) }
    ensures tool_fault { (a b : _) → IsTrue (⟦<ToolFault as PartialEq>⟧.eq a b) ↔ (a ≡ b) }
{}

/// A value of each type that is `Copy`.
type Values = (
    InputFault,
    OutputFault,
    Verdict,
    Mode,
    Usage,
    Command,
    LastLine,
);

pub fn copies(values: Values) -> (Values, Values)
    ensures { result ≡ (values, values) }
{
    (values, values)
}
