//! Runs each example script of a folder and each row of its tables `errors.txt` and `rows.txt`, and prints how it went. The
//! folder is the argument, or where the program runs.
//!
//! The examples lie in this crate's folder `data`, because the gate runs a program where the files of its `data` lie.
#![tactic(auto)]

mod rows;
mod runs;
mod scripts;

use scan_kernels::Execution;
use std::alloc::{Alloc, Global};
use std::rt::Files;
use std::sync::Wait;
use std::thread::Threads;
use std::{env, io};

/// The tables of rows, beside the scripts.
const TABLES: [&str; 2] = ["errors.txt", "rows.txt"];

/// The folder that the arguments name.
fn folder(rt: &HostRuntime) -> io::Result<String> {
    let mut words = env::args(rt)?;
    words.next();
    match words.next() {
        Some(word) => Ok(word.to_string(rt.alloc())?),
        None => Ok(".".to_string(rt.alloc())?),
    }
}

/// Prints of each script whether it is answered by the text beside it.
fn print_scripts<
    R: Files + Alloc<A = Global> + Print + Threads + Wait + Execution<Shared = R> + Sync,
>(rt: &R, folder: &str, names: &[String]) -> io::Result<()> {
    for name in names {
        match scripts::first_difference(rt, folder, name)? {
            None => println!(rt; "{name} ok")?,
            Some(line) => println!(rt; "{name} differs at line {line}")?,
        }
    }
    Ok(())
}

/// Prints the numbers of the rows of a table that are not answered as they say, and how many rows it has.
fn print_rows<R: Files + Alloc<A = Global> + Print + Threads + Wait + Execution<Shared = R> + Sync>(
    rt: &R,
    folder: &str,
    table: &str,
) -> io::Result<()> {
    let checked = rows::check(rt, folder, table)?;
    for row in checked.differing {
        println!(rt; "{table} differs at line {row}")?;
    }
    let count = checked.count;
    println!(rt; "{table} {count} rows")
}

fn main(rt: HostRuntime) -> io::Result<()> {
    let folder = folder(&rt)?;
    let names = scripts::names(&rt, &folder)?;
    print_scripts(&rt, &folder, &names)?;
    for table in TABLES {
        print_rows(&rt, &folder, table)?;
    }
    Ok(())
}
