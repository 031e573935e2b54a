//! The laws on the text of packets. Each is the contract of a function that does nothing.
ghost use Rattle.ether_format.specs.CsvReading.{RecordsAreRead};
ghost use Rattle.ether_format.specs.Laws.{ColumnsAreMembers, TextsAreOne};

/// A time is one moment at most, and a packet has one text.
pub fn texts_are_one()
    ensures { TextsAreOne }
{}

/// What a packet, its headers and its end say has the names of columns, each once and in this order.
pub fn columns_are_members()
    ensures { ColumnsAreMembers }
{}

/// A line of CSV is a record of the texts of its fields, whatever bytes they have, and of no others.
pub fn records_are_read()
    ensures { RecordsAreRead }
{}
