//! The lines of scripts: what they are read from and their text is written to, a script run on one book, and a script read
//! whole, as the jobs of its callers. What a line says depends on the stage that the script is at.
#![tactic(auto)]

mod bad_line;
mod block;
mod deed;
mod ending;
mod fault;
mod gather;
mod good_lines;
mod jobs;
mod judge;
mod line;
mod lines;
mod notes;
mod open_block;
mod progress;
mod reading;
mod run;
mod script;
mod serial;
mod serve;
mod step;
mod streams;

pub use fault::RunFault;
pub use gather::{GATHERED, flush};
pub use good_lines::GoodLines;
pub use lines::Lines;
pub use notes::{note_fault, write_note};
pub use open_block::OpenBlock;
pub use progress::Progress;
pub use run::{Run, write_bad_line};
pub use script::{Script, read_script, read_script_with};
pub use serial::{run_script, run_serial};
pub use serve::append_line;
pub use streams::{Failed, ReadSource, Sink, Source, WriteSink, write_all};
