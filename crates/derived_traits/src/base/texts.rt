//! The texts of generic errors, at the types that they are used with.
use ether_base::err::{ValueTooBigError, linux_sll, macsec};
use std::fmt;

/// The text of a refused whole number, whose own text is its decimal digits.
#[derive(Drop)]
struct ShownRefusal(ValueTooBigError<u16>);

impl fmt::Display for ShownRefusal {
    ghost use Rattle.std.specs.Prelude.{Some, codes, ◌++◌};
    ghost use Rattle.std.specs.Fmt.{decimal};
    ghost use Rattle.ether_base.specs.Enumerations.ValueType.{value_type_name};

    ghost output = { λ shown. Some
        (codes "Error '"
        ++ (decimal shown.0.actual
        ++ (codes "' is too big to be a '"
        ++ (value_type_name shown.0.value_type
        ++ (codes "' (maximum allowed value is '" ++ (decimal shown.0.max_allowed ++ codes "')")))))) };

    fn fmt<W: fmt::Write>(&self, f: &mut fmt::Formatter<W>) -> fmt::Result {
        self.0.fmt(f)
    }
}

/// The text of a refused cooked capture: that of the length error or of the content error.
#[derive(Drop)]
struct ShownLinuxSllError(linux_sll::HeaderSliceError);

impl fmt::Display for ShownLinuxSllError {
    ghost use Rattle.std.specs.Prelude.{Some};
    ghost use Rattle.ether_base.specs.Texts.HeaderSliceError.{header_slice_error_text};
    ghost use Rattle.ether_base.specs.Texts.LinuxSllErrors.{header_error_text};

    ghost output = { λ shown. header_slice_error_text (λ contents. Some (header_error_text contents)) shown.0 };

    fn fmt<W: fmt::Write>(&self, f: &mut fmt::Formatter<W>) -> fmt::Result {
        self.0.fmt(f)
    }
}

/// The text of a refused SecTag: that of the length error or of the content error.
#[derive(Drop)]
struct ShownMacsecError(macsec::HeaderSliceError);

impl fmt::Display for ShownMacsecError {
    ghost use Rattle.std.specs.Prelude.{Some};
    ghost use Rattle.ether_base.specs.Texts.HeaderSliceError.{header_slice_error_text};
    ghost use Rattle.ether_base.specs.Texts.MacsecErrors.{header_error_text};

    ghost output = { λ shown. header_slice_error_text (λ contents. Some (header_error_text contents)) shown.0 };

    fn fmt<W: fmt::Write>(&self, f: &mut fmt::Formatter<W>) -> fmt::Result {
        self.0.fmt(f)
    }
}
