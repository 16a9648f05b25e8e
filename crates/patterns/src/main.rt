//! Reads patterns from standard input, one a line, and writes what the scanner makes of each.

#![tactic(auto)]

mod scan;

use scan::{Features, PatternScan, Refusal};
use std::io;
use std::io::{BufRead, BufReader, BufWriter, Write};

fn write_captures<W: Write>(captures: &[usize], out: &mut W) -> io::Result<()> {
    if let [first, others @ ..] = captures {
        write!(out, "{first}")?;
        for number in others {
            write!(out, ",{number}")?;
        }
    }
    Ok(())
}

/// Writes the six fields of a pattern.
fn write_fields<W: Write>(
    pattern: &[u8],
    answer: Result<Features, Refusal>,
    scan: &PatternScan,
    out: &mut W,
) -> io::Result<()> {
    out.write_all(pattern)?;
    match answer {
        Ok(Features { backrefs }) => {
            for text in [scan.with_newlines(), scan.without_newlines()] {
                out.write_all(b"\t")?;
                out.write_all(text)?;
            }
            out.write_all(b"\t")?;
            write_captures(scan.captures(), out)?;
            out.write_all(if backrefs {
                b"\tbackref\tok\n"
            } else {
                b"\t-\tok\n"
            })
        }
        Err(refusal) => writeln!(out, "\t-\t-\t-\t-\t{refusal}"),
    }
}

fn run(rt: &HostRuntime) -> anyhow::Result<()> {
    let heap = rt.alloc();
    let mut scan = PatternScan::new(heap)?;
    let mut input = BufReader::new(heap, rt.stdin())?;
    let mut output = BufWriter::new(heap, rt.stdout())?;
    // One vector for all lines: `split` would take a new one for each, half the time of a short line.
    let mut line = Vec::new(heap);
    for _ in 0..u64::MAX {
        line.clear();
        if input.read_until(b'\n', &mut line)? == 0 {
            break;
        }
        let pattern = line.strip_suffix(b"\n").unwrap_or(line.as_slice());
        let answer = scan.read(pattern);
        write_fields(pattern, answer, &scan, &mut output)?;
    }
    output.flush()?;
    Ok(())
}

fn main(rt: HostRuntime) -> anyhow::Result<()> {
    run(&rt)
}
