//! What the program says of its words and of a run, but for names and numbers.

/// The program, where a message has no name of a file.
pub(crate) const PROGRAM: &str = "ether_capture";

/// What messages call standard input.
pub(crate) const STANDARD_INPUT: &str = "standard input";

// ---- a capture that is not read to its end

pub(crate) const UNREADABLE: &str = "can't be read";

pub(crate) const NO_MEMORY: &str = "out of memory";

/// Why a packet can't be edited.
pub(crate) const NOT_EDITED: &str =
    "This packet can't be written: its block has no number of captured bytes, or it would be too long.";

/// Why lines of counts are not added up.
pub(crate) const NOT_COUNTS: &str = "no whole line of a count, as --stats prints it";

// ---- a program for a file that this one can't read

pub(crate) const GZIP: &str = " This looks like gzip: zcat unpacks it.";

pub(crate) const ZSTD: &str = " This looks like zstd: zstdcat unpacks it.";

pub(crate) const XZ: &str = " This looks like xz: xzcat unpacks it.";

pub(crate) const BZIP2: &str = " This looks like bzip2: bzcat unpacks it.";

pub(crate) const LZ4: &str = " This looks like lz4: lz4cat unpacks it.";

pub(crate) const PCAP_VARIANT: &str = " This is a variant of pcap: editcap converts it.";

pub(crate) const OTHER_VERSION: &str = " editcap converts it.";

// ---- options, as they are written

pub(crate) const BY: &str = "--by";

pub(crate) const BYTES: &str = "--bytes";

pub(crate) const COUNT: &str = "-c";

pub(crate) const CUT_TO_HEADERS: &str = "--cut-to-headers";

pub(crate) const FIELDS: &str = "--fields";

pub(crate) const FORMAT: &str = "--format";

pub(crate) const FORMAT_CSV: &str = "--format csv";

pub(crate) const FORMAT_JSON: &str = "--format json";

pub(crate) const HEADER: &str = "--header";

pub(crate) const JOBS: &str = "--jobs";

pub(crate) const LIMIT: &str = "--limit";

pub(crate) const POP_VLAN: &str = "--pop-vlan";

pub(crate) const PUSH_VLAN: &str = "--push-vlan";

pub(crate) const SELECT: &str = "--select";

pub(crate) const SET_VLAN: &str = "--set-vlan";

pub(crate) const STATS: &str = "--stats";

pub(crate) const STATUS_ON_FAULT: &str = "--status-on-fault";

pub(crate) const UNDECIDED: &str = "--undecided";

/// The options that ask for a copy.
pub(crate) const COPIES: &str = "--write or -w";

// ---- the values that they take

pub(crate) const PUSHED_TAG: &str = "a TPID of VLAN tags and an identifier up to 4095, as 0x8100:5";

pub(crate) const TWO_IDENTIFIERS: &str = "two identifiers up to 4095, as 5:6";

pub(crate) const PACKETS: &str = "a number from 1 to 4294967295";

pub(crate) const HEADERS: &str = "a number up to 4294967295";

pub(crate) const KEEP_OR_DROP: &str = "keep or drop";

pub(crate) const YES_OR_NO: &str = "yes or no";

pub(crate) const FORMATS: &str = "lines, brief, json or csv";

pub(crate) const COLUMNS: &str = "at most 32 columns, as vlan.vid,eth.src";

// ---- wrong words

pub(crate) const TRY_HELP: &str = "try --help";

pub(crate) const NO_OPTION: &str = "there is no such option";

pub(crate) const NO_VALUE: &str = "its value is missing";

pub(crate) const TWICE: &str = "an option occurs twice, or has a value and takes none";

pub(crate) const CLASH: &str = "these options do not go together";

pub(crate) const SURPLUS: &str = "this is one FILE too many";

pub(crate) const INPUT_TWICE: &str = "-: standard input can be read only once";

pub(crate) const EDITS: &str =
    "--cut-to-headers, --pop-vlan, --push-vlan and --set-vlan do not go together";

pub(crate) const NO_COLUMN: &str = "there is no column";
