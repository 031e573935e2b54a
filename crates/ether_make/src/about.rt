//! What the program says of itself.

/// What `--version` prints, before an LF.
pub const VERSION: &str = "ether_make 3.0.0";

/// What `--help` prints.
pub const HELP: &str = "\
usage: ether_make [--pad] [--fcs] [--count N] [--seed N] [--rate N] [--hex] [-w FILE] [FILE]..

Makes frames. Each line of each FILE, one after the other, is a JSON object with the headers of a frame, as
ether_capture --format json prints it, or shorter:

    {\"headers\":[{\"header\":\"eth\"},{\"header\":\"arp\",\"tpa\":\"10.0.0.2\"}]}

FILE may be -, for standard input, which is read if there is no FILE. A field that is missing has its usual value. The
bytes after the headers are the hexadecimal digits of \"rest\":{\"bytes\":\"..\"}. The output is a capture.

Frames:
  --pad             add zeros to frames of Ethernet that have fewer than 60 bytes, up to 60
  --fcs             append its check sequence to each frame of Ethernet
  --count N         make N frames of each line
  --seed N          draw the random numbers of ranges from N
  --rate N          let N frames follow each other in a second

Output:
  --hex             write each frame as a line of hexadecimal digits, as ether_tool reads it
  -w FILE           write to FILE, in place of standard output

  -h, --help        print this text
  -V, --version     print the version

Exit status: 0, or 2 if the words are wrong, 3 if a line means no frame, 4 if a file, standard input or output fails,
5 if there is no memory.
";
