//! Pipes. What they hold is gone once it is read, so whoever reads a pipe second finds nothing, and registered labels
//! that are not found would seem free.

use crate::fault::Fault;
use idn2_cli::{Mode, Options};
use std::fs;
use std::os::unix::fs::{FileTypeExt, MetadataExt};

/// The name of the standard input.
const INPUT: &str = "/dev/stdin";

/// A pipe, with a name or without one.
#[derive(Clone, Copy, PartialEq, Eq)]
struct Pipe {
    device: u64,
    inode: u64,
}

/// Refuses a pipe that would be read twice.
pub fn check_read_once(
    rt: &HostRuntime,
    options: &Options,
    has_strings: bool,
) -> Result<(), Fault> {
    if !is_read_twice(rt, options, has_strings) {
        return Ok(());
    }
    let cause = if options.explain {
        String::from_str(rt.alloc(), "a pipe can't be read for two inputs").ok()
    } else {
        None
    };
    Err(Fault::Usage(cause))
}

/// Whether two of these are the same pipe: the table, the registered labels, and the lines, where these are read from
/// the standard input. Words that name no file read nothing but lines.
fn is_read_twice(rt: &HostRuntime, options: &Options, has_strings: bool) -> bool {
    if options.file.is_empty() {
        return false;
    }
    let table = pipe_at(rt, &options.file);
    let registered = match &options.among {
        Some(name) => pipe_at(rt, name),
        None => None,
    };
    let lines = if has_strings || matches!(options.mode, Mode::CheckTable | Mode::PrintTable) {
        None
    } else {
        pipe_at(rt, INPUT)
    };
    are_same(table, registered) || are_same(table, lines) || are_same(registered, lines)
}

/// The pipe to which a name leads, if it leads to one.
fn pipe_at(rt: &HostRuntime, name: &str) -> Option<Pipe> {
    match fs::metadata(rt, name) {
        Ok(file) if file.file_type().is_fifo() => Some(Pipe {
            device: file.dev(),
            inode: file.ino(),
        }),
        _ => None,
    }
}

fn are_same(one: Option<Pipe>, other: Option<Pipe>) -> bool {
    one.is_some() && one == other
}
