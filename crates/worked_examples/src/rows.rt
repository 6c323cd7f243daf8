//! Tables of short scripts. A row has the program's arguments, a script, the text that it is to be answered with, and the
//! exit status, with a tab between them, and behind one more tab it may have the name of the example that it is. ` / ` parts
//! the lines of the script and of the text. The last line of a script may end without a line feed: each is run in both ways.

use crate::runs::{STEPS, run};
use scan_kernels::Execution;
use std::alloc::{Alloc, Global};
use std::rt::Files;
use std::sync::Wait;
use std::thread::Threads;
use std::{fs, io};

/// How many rows a table has, and which, counted from 1, are not answered as they say.
#[derive(Drop)]
pub struct Checked {
    pub count: usize,
    pub differing: Vec<usize>,
}

/// Runs the rows of a table.
pub fn check<R: Files + Alloc<A = Global> + Threads + Wait + Execution<Shared = R> + Sync>(
    rt: &R,
    folder: &str,
    table: &str,
) -> io::Result<Checked> {
    let rows = fs::read_to_string(rt, format!(in rt.alloc(); "{folder}/{table}")?)?;
    let mut count = 0usize;
    let mut differing = Vec::new(rt.alloc());
    for line in rows.lines() {
        count = count.saturating_add(1);
        if !holds(rt, line)? {
            differing.push(count)?;
        }
    }
    Ok(Checked { count, differing })
}

/// What a row has but its name.
#[derive(Clone, Copy)]
struct Row<'a> {
    arguments: &'a str,
    script: &'a str,
    text: &'a str,
    status: u8,
}

/// Reads a row, which has four or five cells.
fn read(line: &str) -> Option<Row<'_>> {
    let mut cells = line.split('\t');
    let row = Row {
        arguments: cells.next()?,
        script: cells.next()?,
        text: cells.next()?,
        status: cells.next()?.parse().ok()?,
    };
    match cells.nth(1) {
        None => Some(row),
        Some(_) => None,
    }
}

/// Whether a line is a row that is answered as it says.
fn holds<R: Alloc<A = Global> + Threads + Wait + Execution<Shared = R> + Sync>(
    rt: &R,
    line: &str,
) -> io::Result<bool> {
    let Some(row) = read(line) else {
        return Ok(false);
    };
    let script = lines(rt, row.script)?;
    let text = lines(rt, row.text)?;
    let cut = script.strip_suffix('\n').unwrap_or(&script);
    let good = answers(rt, row.arguments, &script, &text, row.status)?;
    Ok(good && answers(rt, row.arguments, cut, &text, row.status)?)
}

/// Whether the program answers a script with this text and this status, however the script is cut by reads.
fn answers<R: Alloc<A = Global> + Threads + Wait + Execution<Shared = R> + Sync>(
    rt: &R,
    arguments: &str,
    script: &str,
    text: &str,
    status: u8,
) -> io::Result<bool> {
    for step in STEPS {
        let ran = run(rt, arguments, script.as_bytes(), step)?;
        if ran.text.as_slice() != text.as_bytes() || ran.status != status {
            return Ok(false);
        }
    }
    Ok(true)
}

/// The lines of a cell, each ended by a line feed.
fn lines(rt: &impl Alloc<A = Global>, cell: &str) -> io::Result<String> {
    let mut lines = String::new(rt.alloc());
    if cell.is_empty() {
        return Ok(lines);
    }
    for line in cell.split(" / ") {
        lines.push_str(line)?;
        lines.push('\n')?;
    }
    Ok(lines)
}
