//! Tests of the fields of headers.

/// How the value of a field is compared.
#[derive(Clone, Copy, Debug)]
pub enum Relation {
    /// It is not compared: there is a value.
    Exists,
    /// `==`
    Equal,
    /// `!=`: there is a value, and none is equal.
    NotEqual,
    /// `<`
    Less,
    /// `<=`
    AtMost,
    /// `>`
    Greater,
    /// `>=`
    AtLeast,
}

/// A test of the values that the headers of a packet give to one field.
///
/// A packet can have several values of a field, as that of each VLAN tag. The test holds if any of them has the
/// relation to `value`; with [`Relation::NotEqual`] it holds if there are values, and none of them is equal.
#[derive(Clone, Copy, Debug)]
pub struct FieldTest {
    /// The number of the field, which `Field::of_number` of `ether_fields` takes. What a capture says of a packet has
    /// no number there: here `frame.time` has 253, `frame.captured` 254, and `frame.original` 255. `headers.header` has
    /// 252.
    pub field: u8,
    /// The offset in bytes of the tested part of the field's bytes.
    pub first: u8,
    /// The number of bytes in that part, or 0 if all bytes are tested. Numbers are always tested whole.
    pub count: u8,
    /// How the field's value is compared.
    pub relation: Relation,
    /// The bits of the field's value that are compared.
    pub mask: u64,
    /// The number of bytes that the compared value has, up to 8. Bytes of any other number have no relation to it. It
    /// is not used for numbers.
    pub len: u8,
    /// What the field's value is compared with. Bytes are one number, the first byte its most significant one. A time
    /// is the number of nanoseconds since the beginning of 1970. The name of a header is its letters.
    pub value: u64,
}
