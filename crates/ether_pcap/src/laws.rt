//! The laws of the formats. Each is the contract of a function that does nothing.
ghost use Rattle.ether_pcap.specs.Laws.{FileHeadersAreOne, RecordsAreOne, ContentsAreOne, BlocksAreOne, BodiesAreOne, SectionsAreOne, OptionsAreOne};
ghost use Rattle.ether_pcap.specs.Writing.{WrittenFilesAreRead};
ghost use Rattle.ether_pcap.specs.WritingBlocks.{WrittenSectionsAreRead};
ghost use Rattle.ether_pcap.specs.Copies.{CopiesAreRead, CopiesAreOne, CopiesCompose};
ghost use Rattle.ether_pcap.specs.CaptureLaws.{UnitsAreLocal, UnitLengths, UnitsAreOne, PacketsAreOne};

/// Bytes begin with at most one file header, and otherwise have at most one reason for refusal.
pub fn file_headers_are_one()
    ensures { FileHeadersAreOne }
{}

/// Bytes begin with at most one record, and otherwise have at most one reason for refusal.
pub fn records_are_one()
    ensures { RecordsAreOne }
{}

/// Any bytes after a file header have exactly one list of records, one rest, and, if the rest is not empty, one reason
/// why it does not begin with a record.
pub fn contents_are_one()
    ensures { ContentsAreOne }
{}

/// Bytes begin with at most one block of a pcapng file, and otherwise have at most one reason for refusal.
pub fn blocks_are_one()
    ensures { BlocksAreOne }
{}

/// The body of an interface description or of a packet has at most one value, and otherwise at most one reason for
/// refusal.
pub fn bodies_are_one()
    ensures { BodiesAreOne }
{}

/// Bytes begin with at most one section header, and otherwise have at most one reason for refusal.
pub fn sections_are_one()
    ensures { SectionsAreOne }
{}

/// Any bytes have exactly one list of options.
pub fn options_are_one()
    ensures { OptionsAreOne }
{}

/// Appending bytes to a unit of a capture file, or removing bytes after it, does not change how it is read. A refusal
/// is also unchanged by appended bytes, unless the bytes end within the unit.
pub fn units_are_local()
    ensures { UnitsAreLocal }
{}

/// A unit of a capture file has at least one byte, and at most all bytes that there are. A required length is greater
/// than the number of bytes that there are.
pub fn unit_lengths()
    ensures { UnitLengths }
{}

/// Any bytes begin with exactly one unit of a capture file, or are refused for exactly one reason.
pub fn units_are_one()
    ensures { UnitsAreOne }
{}

/// Any bytes have exactly one list of packets, one rest, and at most one reason why that rest is refused.
pub fn packets_are_one()
    ensures { PacketsAreOne }
{}

/// A classic file that is written as a header and records has exactly the packets of these records, and nothing is
/// left over.
pub fn written_files_are_read()
    ensures { WrittenFilesAreRead }
{}

/// A pcapng file that is written as a section header, interface descriptions and enhanced packets has exactly these
/// packets, and nothing is left over. Further sections may follow the first.
pub fn written_sections_are_read()
    ensures { WrittenSectionsAreRead }
{}

/// A copy of a capture file without some of its packets, and with others edited, is a file of the same format. It has
/// exactly the packets that are kept, in their order, each as it was edited. If nothing of a file is copied, the file
/// is refused at its first unit. A copy ends before a packet that can't be edited: a simple packet, or one that would
/// be too long. What libpcap asks of the interfaces of a pcapng file holds of a copy if it holds of the file.
pub fn copies_are_read()
    ensures { CopiesAreRead }
{}

/// For each test of packets, and each rule that gives a packet one edit, any bytes have exactly one copy.
pub fn copies_are_one()
    ensures { CopiesAreOne }
{}

/// Selecting packets of a capture, and then packets of the copy, gives the copy of the packets that both tests select.
/// Selecting twice by the same test gives the first copy again.
pub fn copies_compose()
    ensures { CopiesCompose }
{}
