//! What callers know of the derived traits, at each type of `ether_peel`. These functions are proved and never run.
ghost use Rattle.std.specs.Prelude.{◌≡◌, ◌↔◌, IsTrue};
ghost use Rattle.ether_peel.specs.Walker.SameUnit.{SameUnit};

use ether_peel::{Feed, PeelError, PeelFault, PeelUnit, RestKind, Start, Summary};

/// A clone is `Ok` and equals its source.
pub fn clones()
    ensures start { let it = ⟦<Start as Clone>⟧ in (a b : _) → it.is_infallible a × (it.is_clone a b → b ≡ a) }
    ensures peel_unit { let it = ⟦<PeelUnit<'static> as Clone>⟧ in
        (a b : _) → it.is_infallible a × (it.is_clone a b → b ≡ a) }
    ensures rest_kind { let it = ⟦<RestKind as Clone>⟧ in (a b : _) → it.is_infallible a × (it.is_clone a b → b ≡ a) }
    ensures peel_error { let it = ⟦<PeelError as Clone>⟧ in
        (a b : _) → it.is_infallible a × (it.is_clone a b → b ≡ a) }
    ensures peel_fault { let it = ⟦<PeelFault as Clone>⟧ in
        (a b : _) → it.is_infallible a × (it.is_clone a b → b ≡ a) }
    ensures summary { let it = ⟦<Summary as Clone>⟧ in (a b : _) → it.is_infallible a × (it.is_clone a b → b ≡ a) }
    ensures feed { let it = ⟦<Feed as Clone>⟧ in (a b : _) → it.is_infallible a × (it.is_clone a b → b ≡ a) }
{}

/// `==` is equality.
pub fn equality()
    ensures start { (a b : _) → IsTrue (⟦<Start as PartialEq>⟧.eq a b) ↔ (a ≡ b) }
    ensures rest_kind { (a b : _) → IsTrue (⟦<RestKind as PartialEq>⟧.eq a b) ↔ (a ≡ b) }
    ensures peel_error { (a b : _) → IsTrue (⟦<PeelError as PartialEq>⟧.eq a b) ↔ (a ≡ b) }
    ensures peel_fault { (a b : _) → IsTrue (⟦<PeelFault as PartialEq>⟧.eq a b) ↔ (a ≡ b) }
    ensures summary { (a b : _) → IsTrue (⟦<Summary as PartialEq>⟧.eq a b) ↔ (a ≡ b) }
    ensures feed { (a b : _) → IsTrue (⟦<Feed as PartialEq>⟧.eq a b) ↔ (a ≡ b) }
    ensures peel_unit { (a b : _) → IsTrue (⟦<PeelUnit<'static> as PartialEq>⟧.eq a b) ↔ SameUnit a b }
{}

/// Both are `Copy`.
pub fn copies(values: (Start, RestKind)) -> ((Start, RestKind), (Start, RestKind))
    ensures { result ≡ (values, values) }
{
    let copy = values;
    (copy, values)
}
