//! Scripts `NAME.cvl`, each with the text that it is to be answered with beside it, `NAME.out`. Those whose names end with
//! `.threads` are run in that mode.

use crate::runs::{STEPS, run};
use scan_kernels::Execution;
use std::alloc::{Alloc, Global};
use std::rt::Files;
use std::sync::Wait;
use std::thread::Threads;
use std::{fs, io};

/// The names of the scripts in a folder, in the order of their bytes.
pub fn names(rt: &HostRuntime, folder: &str) -> io::Result<Vec<String>> {
    let mut names = Vec::new(rt.alloc());
    for entry in fs::read_dir(rt, folder)? {
        let entry = entry?;
        let file = entry.file_name().to_string_lossy();
        if let Some(name) = file.strip_suffix(".cvl") {
            names.push(name.to_string(rt.alloc())?)?;
        }
    }
    names.sort_unstable();
    Ok(names)
}

/// The mode that a script is for.
fn mode_of(name: &str) -> &str {
    if name.ends_with(".threads") {
        "threads"
    } else {
        "serial"
    }
}

/// The first line, counted from 1, where the program's answer to a script is not the text beside it, however the script is
/// cut by reads.
pub fn first_difference<
    R: Files + Alloc<A = Global> + Threads + Wait + Execution<Shared = R> + Sync,
>(rt: &R, folder: &str, name: &str) -> io::Result<Option<usize>> {
    let script = fs::read(rt, format!(in rt.alloc(); "{folder}/{name}.cvl")?)?;
    let text = fs::read(rt, format!(in rt.alloc(); "{folder}/{name}.out")?)?;
    for step in STEPS {
        let ran = run(rt, mode_of(name), &script, step)?;
        if ran.text != text || ran.status != 0 {
            return Ok(Some(line_apart(&ran.text, &text)));
        }
    }
    Ok(None)
}

/// The first line, counted from 1, where one text is not the other.
fn line_apart(left: &[u8], right: &[u8]) -> usize {
    let same = left
        .iter()
        .zip(right)
        .take_while(|(left, right)| left == right);
    let lines = same.filter(|(left, _)| **left == b'\n').count();
    lines + 1
}
