// vectors: computes the results of cases on standard input, one case a line after the name of its
// kind, in groups that each follow a line with their label. If another call, or the same call in
// pieces, has another result, the program ends with an error.
#![tactic(auto)]

mod cases;
mod info_list;
mod norm;
mod pairs;
mod quirks;
mod refusal;
mod same;
mod show;

use std::alloc::Global;
use std::io::{self, BufRead, BufReader, BufWriter, ErrorKind, Write};

/// Writes the result of a line: the name of a kind, a space, and a case of that kind.
fn write_line_result<W: Write>(alloc: Global, line: &str, out: &mut W) -> io::Result<()> {
    let (kind, fields) = line.split_once(' ').ok_or(ErrorKind::InvalidInput)?;
    match kind {
        "norm" => norm::write_result(alloc, fields, out),
        "same" => same::write_result(alloc, fields, out),
        "pairs" => pairs::write_result(alloc, fields, out),
        "spelling" => quirks::write_result(alloc, fields, out),
        "refusal" => refusal::write_result(alloc, fields, out),
        "link_info" => info_list::write_result(alloc, fields, out),
        "show" => show::write_result(alloc, fields, out),
        _ => Err(io::Error::from(ErrorKind::InvalidInput)),
    }
}

/// Returns the reason why a case fails.
fn reason(error: &io::Error) -> &'static str {
    match error.kind() {
        ErrorKind::InvalidInput => "not a case",
        ErrorKind::InvalidData => "another call has another result",
        _ => "no result",
    }
}

fn main(rt: HostRuntime) -> io::Result<()> {
    let alloc = rt.alloc();
    let mut out = BufWriter::new(alloc, io::writer(&rt))?;
    let mut label = String::new(alloc);
    let mut number: u64 = 0;
    for line in BufReader::new(alloc, rt.reader())?.lines(alloc) {
        let line = line?;
        number = number.wrapping_add(1);
        if let Some(text) = line.as_str().strip_prefix("# ") {
            label = String::from_str(alloc, text)?;
            continue;
        }
        if let Err(error) = write_line_result(alloc, line.as_str(), &mut out) {
            eprintln!(rt; "stdin:{number}: {label}: {}", reason(&error))?;
            return Err(error);
        }
    }
    out.flush()
}
