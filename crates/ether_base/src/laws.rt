//! The laws of the wire formats and of the orders. Each is the contract of a function that does nothing: its clause
//! holds for every list of bytes, or for every two values.
ghost use Rattle.ether_base.specs.Laws.{NumbersAreBytes, RowsAreApart, LengthRowsAreShort, HeadersAreMeant, BytesMeanTheirHeader};
ghost use Rattle.ether_base.specs.Enumerations.Orders.{OrdersAreByVariants};

/// Each list of bytes has one number, and each number below 256^k is the number of the k bytes that spell it.
pub fn numbers_are_bytes()
    ensures { NumbersAreBytes }
{}

/// For given bytes and a kind of unit, at most one row of the table of refusals holds, and it is decided whether one
/// does.
pub fn rows_are_apart()
    ensures { RowsAreApart }
{}

/// A row that refuses a length names the number of the bytes, and requires more.
pub fn length_rows_are_short()
    ensures { LengthRowsAreShort }
{}

/// Bytes that no row refuses mean a header, and a list of bytes means at most one header of a kind.
pub fn headers_are_meant()
    ensures { HeadersAreMeant }
{}

/// The bytes of a header mean that header, whatever follows them.
pub fn bytes_mean_their_header()
    ensures { BytesMeanTheirHeader }
{}

/// Layers, value types, length sources and protocol types are ordered as their variants are listed. Protocol types of
/// the same variant are ordered by their numbers.
pub fn orders_are_by_variants()
    ensures { OrdersAreByVariants }
{}
