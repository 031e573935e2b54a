//! The laws of the format. Each is the contract of a function that does nothing: its clause holds for every list of
//! bytes and every header.
ghost use Rattle.ether_sll2.specs.Laws.{RowsAreApart, HeadersAreMeant, BytesMeanTheirValue};

/// At most one row of the table of refusals holds, and it is decided whether one does.
pub fn rows_are_apart()
    ensures { RowsAreApart }
{}

/// Twenty bytes mean one header, whatever follows them.
pub fn headers_are_meant()
    ensures { HeadersAreMeant }
{}

/// The bytes of a header mean that header. If the header was read, they are the bytes that were read, except that the
/// reserved ones are 0.
pub fn bytes_mean_their_value()
    ensures { BytesMeanTheirValue }
{}
