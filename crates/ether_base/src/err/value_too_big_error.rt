//! A value that exceeds its field's maximum.
ghost use Rattle.ether_base.specs.Texts.LengthErrors.{value_too_big_error_text};

use crate::err::ValueType;
use std::error::Error;
use std::fmt::{self, Debug, Display};
use std::hash::Hash;

/// The value exceeds the field's maximum.
///
/// ```
/// let refused = ValueTooBigError {
///     actual: 8,
///     max_allowed: 7,
///     value_type: ValueType::VlanPcp,
/// };
/// assert_eq!(rt; VlanPcp::try_new(8), Err(refused));
/// ```
#[derive(Clone, Copy, PartialEq, Eq, Hash, Debug)]
pub struct ValueTooBigError<T: Clone + Display + Debug + Eq + Hash> {
    /// The value that was passed in.
    pub actual: T,
    /// The greatest value that is accepted.
    pub max_allowed: T,
    /// The field that the value was meant for.
    pub value_type: ValueType,
}

impl<T: Clone + Display + Debug + Eq + Hash> Display for ValueTooBigError<T> {
    ghost output = { λ error. value_too_big_error_text (T.output error.actual)
        (T.output error.max_allowed) error.value_type };

    fn fmt<W: fmt::Write>(&self, f: &mut fmt::Formatter<W>) -> fmt::Result {
        let actual = &self.actual;
        let value_type = self.value_type;
        let max_allowed = &self.max_allowed;
        write!(
            f,
            "Error '{actual}' is too big to be a '{value_type}' (maximum allowed value is '{max_allowed}')"
        )
    }
}

impl<T: Clone + Display + Debug + Eq + Hash + Drop> Error for ValueTooBigError<T> {}
