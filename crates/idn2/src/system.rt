//! What the program takes from the system: its files, its output.

use crate::fault::Fault;
use idn2_cli::{Mode, Notation, Options};
use std::fs::File;
use std::io::{self, BufWriter, Read, Stdout};

/// One byte more than a table's text may have: no later byte changes what is wrong with it.
const TABLE_BYTES: u64 = 1_048_577;

/// One byte more than a ruleset in XML may have: no later byte changes what is wrong with it, nor with one of our own
/// notation, which may have 8 MiB.
const RULESET_BYTES: u64 = 67_108_865;

/// As many bytes of the file of registered labels as can matter: 2^32, and after these a line of 1,024 bytes with its
/// line feed, so that the first line that ends too late is there as far as it is tested.
const REGISTERED_BYTES: u64 = 4_294_968_321;

/// How many bytes of the output are kept until they are written.
const OUTPUT_BUFFER_LEN: usize = 65_536;

/// The bytes of the file of the table or ruleset, as many as can matter; none in a mode without one.
pub fn read_table(rt: &HostRuntime, options: &Options) -> Result<Vec<u8>, Fault> {
    match options.mode {
        Mode::Lookup | Mode::Register | Mode::Decode | Mode::DecodeOld => Ok(Vec::new(rt.alloc())),
        Mode::Variants | Mode::Jump | Mode::CheckTable | Mode::PrintTable => {
            let most = match options.notation {
                Notation::Table => TABLE_BYTES,
                Notation::Ruleset => RULESET_BYTES,
            };
            read_file(rt, &options.file, most, options.explain)
        }
    }
}

/// The bytes of the file of registered labels, as many as can matter; nothing where the options name none.
pub fn read_registered(rt: &HostRuntime, options: &Options) -> Result<Option<Vec<u8>>, Fault> {
    match &options.among {
        Some(name) => Ok(Some(read_file(rt, name, REGISTERED_BYTES, options.explain)?)),
        None => Ok(None),
    }
}

/// The bytes of a file, up to so many.
fn read_file(rt: &HostRuntime, name: &str, most: u64, explains: bool) -> Result<Vec<u8>, Fault> {
    match read_start(rt, name, most) {
        Ok(bytes) => Ok(bytes),
        Err(error) => Err(Fault::of_read(rt.alloc(), name, error.kind(), explains)),
    }
}

/// The first bytes of a file.
fn read_start(rt: &HostRuntime, name: &str, most: u64) -> io::Result<Vec<u8>> {
    let mut bytes = Vec::new(rt.alloc());
    File::open(rt, name)?.take(most).read_to_end(&mut bytes)?;
    Ok(bytes)
}

/// The standard output, through a buffer.
pub fn standard_output(rt: &HostRuntime) -> Result<BufWriter<Stdout>, Fault> {
    match BufWriter::with_capacity(rt.alloc(), OUTPUT_BUFFER_LEN, rt.stdout()) {
        Ok(output) => Ok(output),
        Err(_) => Err(Fault::Memory),
    }
}
