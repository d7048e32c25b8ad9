// read_links: reads the cases on standard input as values, one case a line after the name of its
// kind, and writes for each what was read and the bytes that it is written as, or the refusal. A
// line that begins with `# ` is the label of the cases that follow.
#![tactic(auto)]

mod frame;
mod link;
mod value;
mod walk;

use link::read_hex;
use std::alloc::Global;
use std::io::{self, BufRead, BufReader, BufWriter, ErrorKind, Write};

/// Writes the result of a line: the name of a kind, a space, and a case of that kind.
fn write_line_result<W: Write>(alloc: Global, line: &str, out: &mut W) -> io::Result<()> {
    let (kind, fields) = line.split_once(' ').ok_or(ErrorKind::InvalidInput)?;
    match kind {
        "body" => link::write_body(alloc, fields, out),
        "attributes" => link::write_attributes(alloc, fields, out),
        "link_info" => link::write_link_info(alloc, fields, out),
        "frame" => frame::write_result(alloc, read_hex(alloc, fields)?.as_slice(), out),
        "walk" => walk::write_result(alloc, read_hex(alloc, fields)?.as_slice(), out),
        "reads" => link::write_repeated(alloc, fields, false, out),
        "emits" => link::write_repeated(alloc, fields, true, out),
        _ => Err(io::Error::from(ErrorKind::InvalidInput)),
    }
}

fn main(rt: HostRuntime) -> io::Result<()> {
    let alloc = rt.alloc();
    let mut out = BufWriter::new(alloc, io::writer(&rt))?;
    let mut label = String::new(alloc);
    let mut number: u64 = 0;
    for line in BufReader::new(alloc, rt.reader())?.lines(alloc) {
        let line = line?;
        number = number.wrapping_add(1);
        if let Some(text) = line.as_str().strip_prefix("# ") {
            label = String::from_str(alloc, text)?;
            continue;
        }
        if let Err(error) = write_line_result(alloc, line.as_str(), &mut out) {
            eprintln!(rt; "stdin:{number}: {label}: no result")?;
            return Err(error);
        }
    }
    out.flush()
}
