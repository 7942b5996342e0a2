// Runs the rows of two records through the library: examples.txt, the examples of document 01 and
// published ones, and rust.txt, answers of the Rust, which `tests/compare/run --vectors` made. Prints the
// line of each row that does not come out, and how many rows of each exporter do.
#![tactic(auto)]

mod call;
mod compare;
mod exporter;
mod row;
mod span_row;

use compare::comes_out;
use exporter::Exporter;
use row::begins;
use std::rt::Files;
use std::{fs, io};

// The first line of a text, without its end.
fn first_line(text: &[u8]) -> &[u8] {
    for place in 0..text.len() {
        if text[place] == b'\n' {
            return &text[..place];
        }
    }
    text
}

// What stands behind the first line.
fn behind(text: &[u8]) -> &[u8] {
    let next = first_line(text).len().saturating_add(1);
    &text[next.min(text.len())..]
}

// How many rows a record has: lines that are not empty, and no comments.
fn count_rows(record: &[u8]) -> u64 {
    let mut rows: u64 = 0;
    let mut rest = record;
    for _ in 0..record.len() {
        let row = first_line(rest);
        if !row.is_empty() && !begins(row, b"#") {
            rows = rows.saturating_add(1);
        }
        rest = behind(rest);
    }
    rows
}

// Runs the rows of an exporter, and prints how many come out.
fn run(rt: &impl Print, path: &str, record: &[u8], exporter: Exporter) -> io::Result<u64> {
    let mut rows: u64 = 0;
    let mut right: u64 = 0;
    let mut rest = record;
    for line in 0..record.len() {
        let row = first_line(rest);
        if exporter.is_of(row) {
            rows = rows.saturating_add(1);
            if comes_out(exporter, row) {
                right = right.saturating_add(1);
            } else {
                let number = line.saturating_add(1);
                println!(rt; "{path}: line {number} is WRONG")?;
            }
        }
        rest = behind(rest);
    }
    let name = exporter.name();
    if 0 < rows {
        println!(rt; "{path}: {name} {right} of {rows}")?;
    }
    Ok(right)
}

// Runs the rows of a file.
fn run_file(rt: &(impl Files + Print + AllocGlobal), path: &str) -> io::Result<()> {
    let record = fs::read(rt, path)?;
    let mut right: u64 = 0;
    for exporter in Exporter::ALL {
        right = right.saturating_add(run(rt, path, &record, exporter)?);
    }
    let rows = count_rows(&record);
    println!(rt; "{path}: {right} of {rows} rows come out")
}

fn main(rt: HostRuntime) -> io::Result<()> {
    run_file(&rt, "examples.txt")?;
    run_file(&rt, "rust.txt")
}
