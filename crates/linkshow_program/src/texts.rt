//! The texts that the program writes.

ghost use Rattle.std.specs.Prelude.{◌≡◌};
ghost use Rattle.linkshow_program.specs.Texts.{is_compressed, is_json, is_lines, is_pcap, is_pcapng, is_program};
ghost use Rattle.linkshow_program.specs.Texts.{advice, cause, help_text, version_text};

use std::io::ErrorKind;

/// The usage line.
pub const USAGE: &str =
    "usage: linkshow [--only TYPE,..] [--link WORD] [--without NAME,..] [--without-numbers] \
     [--offsets] [--keep-going] [--json] [--kernels] [--limit N] [FILE]; linkshow --help says more\n";

/// The version of the program, and the format version of its lines.
const VERSION: &str = "linkshow 0.1.0, lines 4\n";

/// The help.
const HELP: &str = "usage: linkshow [--only TYPE,..] [--link WORD] [--without NAME,..]
                [--without-numbers] [--offsets] [--keep-going] [--json]
                [--kernels] [--limit N] [FILE]
       linkshow --help
       linkshow --version

Shows a capture of netlink messages as lines: that in FILE, or on standard
input if there is no FILE or it is -. A capture is the bytes of its messages,
one after the other, each at an offset that is a multiple of 4. The lines are
those of its normal text: captures that mean the same have the same lines.

  --only TYPE,..     show only messages of these types, by name or number:
                     newlink,setlink,77
  --link WORD        show only messages about this link, by its index, its
                     name or an alternative name
  --without NAME,..  leave out these attributes, by name, and these groups:
                     numbers, as --without-numbers; counters, as statistics
                     and timers; indexes, of links and of namespaces;
                     padding, which is shown if it isn't zero or is cut;
                     tables, of rates and sizes in traffic control
  --without-numbers  leave out sequence numbers and netlink port IDs, which
                     change from run to run
  --offsets          show each message's offset in bytes
  --keep-going       show messages with an invalid body too, in hex and with
                     the reason, and the messages after them
  --json             write an object of JSON for each message, a line each
  --limit N          the greatest length of a message in bytes, from 16 to
                     4294967295; without it, 1048576
  --kernels          first note on standard error each encoding that kernels
                     treat differently from its normal text
  -h, --help         this text
  --version          the version of linkshow, and the format version of its
                     lines

A value follows its option, or comes after =, as --only=newlink. After -- no
option follows, but a FILE, whose name may begin with -.

Status 0: the capture is legal, and its lines are written. 2: the capture has
a fault, which standard error names with its offset in bytes, or a file can't
be opened, read or written, or memory ran out; the lines before it are
written. 3: a usage error.

Example, the links of this network namespace:

  linkrec dump > links.bin
  linkshow links.bin
  linkshow --json links.bin | jq .attributes
";

/// Returns the version of the program, and the format version of its lines.
pub fn version() -> &'static str
    ensures { result.now ≡ version_text }
{
    VERSION
}

/// Returns the help.
#[tactic(auto, unfolding(crate::specs::Texts::help_text))]
pub fn help() -> &'static str
    ensures { result.now ≡ help_text }
{
    HELP
}

/// Returns the reason why a file can't be opened.
pub fn cause(kind: ErrorKind) -> &'static str
    ensures { result.now ≡ cause kind }
{
    match kind {
        ErrorKind::NotFound => "no such file",
        ErrorKind::PermissionDenied => "permission denied",
        ErrorKind::IsADirectory => "it is a directory",
        ErrorKind::NotADirectory => "a part of the path is not a directory",
        ErrorKind::FilesystemLoop => "too many symbolic links",
        ErrorKind::InvalidFilename | ErrorKind::InvalidInput => "not a valid file name",
        ErrorKind::OutOfMemory => "no memory",
        _ => "it can't be opened",
    }
}

/// Returns whether bytes begin with one of the four magic numbers of pcap.
fn is_pcap(first: &[u8]) -> bool
    ensures { result ≡ is_pcap first.now }
{
    first == b"\xa1\xb2\xc3\xd4".as_slice()
        || first == b"\xd4\xc3\xb2\xa1".as_slice()
        || first == b"\xa1\xb2\x3c\x4d".as_slice()
        || first == b"\x4d\x3c\xb2\xa1".as_slice()
}

/// Returns whether bytes begin with the magic number of pcapng.
fn is_pcapng(first: &[u8]) -> bool
    ensures { result ≡ is_pcapng first.now }
{
    first == b"\n\r\r\n".as_slice()
}

/// Returns whether bytes begin lines of this program: with the name of a message's type, with `type`
/// for one without a name, or with the head of a golden file.
fn is_lines(first: &[u8]) -> bool
    ensures { result ≡ is_lines first.now }
{
    first == b"RTM_".as_slice()
        || first == b"NLMS".as_slice()
        || first == b"type".as_slice()
        || first == b"# li".as_slice()
}

/// Returns whether bytes begin a line of this program's JSON.
fn is_json(first: &[u8]) -> bool
    ensures { result ≡ is_json first.now }
{
    first == b"{\"ty".as_slice()
}

/// Returns whether bytes begin a compressed file: of gzip, without and with a name, of xz, or of
/// Zstandard.
fn is_compressed(first: &[u8]) -> bool
    ensures { result ≡ is_compressed first.now }
{
    first == b"\x1f\x8b\x08\x00".as_slice()
        || first == b"\x1f\x8b\x08\x08".as_slice()
        || first == b"\xfd7zX".as_slice()
        || first == b"\x28\xb5\x2f\xfd".as_slice()
}

/// Returns whether bytes begin a program in the format ELF.
fn is_program(first: &[u8]) -> bool
    ensures { result ≡ is_program first.now }
{
    first == b"\x7fELF".as_slice()
}

/// Returns the advice for a capture with a fault that begins with these four bytes: a line, or
/// nothing.
pub fn advice(first: &[u8]) -> &'static str
    ensures { result.now ≡ advice first.now }
{
    if is_pcap(first) {
        "linkshow: this is a pcap file: linkrec pcap FILE makes a capture of it\n"
    } else if is_pcapng(first) {
        "linkshow: this is a pcapng file: linkrec pcap FILE makes a capture of it\n"
    } else if is_lines(first) {
        "linkshow: these are lines of linkshow already: linkdiff and linkjson read them\n"
    } else if is_json(first) {
        "linkshow: this is JSON of linkshow already\n"
    } else if is_compressed(first) {
        "linkshow: this is a compressed file: decompress it first\n"
    } else if is_program(first) {
        "linkshow: this is a program: linkrec run records what it asks for\n"
    } else {
        ""
    }
}
