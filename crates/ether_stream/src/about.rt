//! What the program says of itself.

/// What `--help` prints, without its last LF. The lines of the options are made of the table of options of
/// `ether_capture`, by `tests/options.py --set`.
pub const HELP: &str = "usage: ether_capture [-r FILE | FILE..] [SELECTION] [--limit N] [--jobs N]
                     [--progress] [--status-on-fault yes|no] [--plain |
                     --format lines|brief|json [--bytes] | --fields COLUMNS
                     [--format csv] [--header] | --stats [--fields COLUMNS |
                     --by COLUMNS] [--format json]]
       ether_capture [-r FILE | FILE] [SELECTION] [--jobs N] [--progress]
                     --write | -w COPY [--cut-to-headers | --pop-vlan |
                     --push-vlan TPID:ID | --set-vlan A:B]
       ether_capture --merge [--format json]
SELECTION is [--select EXPR [--undecided keep|drop]] [-c N].

Prints the link-layer headers of each packet of captures, pcap or pcapng: of each FILE, or of standard input, which a FILE of - also names. What can't be read or written is said on standard error.

  -r FILE           read FILE, as if it was named alone
  --progress        show on standard error how many bytes are read, and how fast
  --jobs N          make lines in N threads, where the program has threads; the output is the same

Which packets:
  --select EXPR     only packets that match EXPR, as 'vlan 5 or arp'
  --undecided keep|drop
                    with --select, keep or drop packets that were cut too short to tell, in place of taking them as they are
  -c N              end with the N-th of these packets, of all files together

Lines:
  --plain           leave out the lines of packets and the totals
  --limit N         read N VLAN tags and SecTags of each packet at most
  --format lines|brief|json|csv
                    print lines as ever; or each packet on a line of its own, for the eye, as an object of JSON or, with --fields, as CSV, without totals
  --bytes           with --format json, also print the bytes after the headers of a packet, and reserved bits that are not 0
  --fields COLUMNS  print the values of COLUMNS, as frame.number,vlan.vid,eth.src, with tabs; more than one value with commas
  --header          with --fields, print a line of the names first
  --stats           count packets and bytes by the values of COLUMNS, or without --fields of headers, VLANs, types, faults and ARP senders
  --by COLUMNS      with --stats, count by the values of all COLUMNS together, as arp.spa,arp.sha
  --merge           add up counts that --stats has printed, which are read from standard input
  --status-on-fault yes|no
                    exit with 1 if headers of a packet are wrong or cut: yes, as ever, or no

Copies:
  --write           write the capture itself to standard output, of one FILE at most, without the other packets
  -w COPY           write it to the file COPY, which changes only once all is written; without --write, too
  --cut-to-headers  with --write, cut each packet where its link-layer headers end
  --pop-vlan        with --write, take the VLAN tag after the link's header off each frame
  --push-vlan TPID:ID
                    with --write, put a VLAN tag after the link's header, as 0x8100:5
  --set-vlan A:B    with --write, give the outermost VLAN tag with identifier A identifier B

  -h, --help        print this text
  -V, --version     print the version

EXPR has these primitives, with not, and, or and parentheses:

  vlan [ID], outer vlan ID, inner vlan ID, macsec, arp, ip, ip6
  ether proto TYPE, ether src ADDR, ether dst ADDR, ether host ADDR
  ether broadcast, ether multicast, less N, greater N, cut, refused
  a field, as vlan.pcp, alone or with ==, !=, <, <=, >, >= or in {V, V}

Each says something of all headers of a packet: unlike in pcap-filter(7), arp is true after any tags, too.

A column is a member of the objects that --format json prints: of the packet (frame), of its headers (eth, vlan, macsec, arp, sll, sll2, or headers for the place of each), or of its end (rest, fault). ether-capture(1) lists them.

Examples:

  ether_capture --select 'vlan 5 or arp' f.pcap
  ether_capture --fields frame.time,vlan.vid,eth.src --header f.pcap
  tcpdump -U --immediate-mode -w - | ether_capture
  ether_capture -r f.pcap -w tagged.pcap --push-vlan 0x8100:5";

/// What `--version` prints, without its LF.
pub const VERSION: &str = "ether_capture 3.0.0";
