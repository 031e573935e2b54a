//! What the program says of itself.
ghost use Rattle.std.specs.Prelude.{map, IfSome, IfNone, ℕ, List};
ghost use Rattle.ether_text.specs.Tool.About.{Tells};

/// The answer to `--help`.
pub const HELP: &str = "usage: ether_tool eth | fcs | sll | type XXXX | feed [limit N]

Reads frames from standard input, each a line of hexadecimal digits, and prints the link-layer headers of each.

  eth        frames that begin with an Ethernet II header; also if there is no word
  fcs        the same, and they end in a frame check sequence
  sll        frames that begin with a header of Linux cooked capture v1
  type XXXX  what this ether type announces, of four hexadecimal digits
  feed       how many bytes of an Ethernet II frame a reader of a stream needs
  limit N    read at most N VLAN tags and SecTags of each frame
  --help     print this help
  --version  print the version

The status is 0 if all frames are accepted, 1 if one is refused, 2 for wrong words, 3 for a bad line, 4 for a fault.";

/// The answer to `--version`.
pub const VERSION: &str = "ether_tool 3.0.0";

/// Returns what the program says of itself if its only word asks for that: [`HELP`] for `--help`, [`VERSION`] for
/// `--version`. All other words are those of a command, or wrong.
pub fn about(words: &[&str]) -> Option<&'static str>
    ensures some { IfSome result (λ text. Tells (map (λ word. word.now) words.now) text.now) }
    ensures none { IfNone result ((text : List ℕ) → ¬ (Tells (map (λ word. word.now) words.now) text)) }
{
    match words {
        ["--help"] => Some(HELP),
        ["--version"] => Some(VERSION),
        _ => None,
    }
}
