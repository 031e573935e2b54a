//! The laws of the table of fields. Each is the contract of a function that does nothing.
ghost use Rattle.ether_fields.specs.Laws.{NumbersAreApart, FieldsAreValues};

/// No two fields have one number.
pub fn numbers_are_apart()
    ensures { NumbersAreApart }
{}

/// The bits of each field of a header are the number that the standard gives the field of this name.
pub fn fields_are_values()
    ensures { FieldsAreValues }
{}
