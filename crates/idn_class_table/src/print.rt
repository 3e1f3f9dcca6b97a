//! Printing the two tables as the source of a module.

use crate::trie::Trie;
use std::fmt::Display;
use std::io;

/// Prints the whole file.
pub(crate) fn print_tables(rt: &impl Print, classes: &Trie, facts: &Trie) -> io::Result<()> {
    println!(rt;
        "//! Two tables of all code points. Printed by the program `idn_class_table`: do not edit."
    )?;
    println!(rt; "//!")?;
    println!(rt;
        "//! That of the classes, for `ucd_table::get::<4, 8>`: 0 is DISALLOWED, 1 PVALID, 2 CONTEXTJ,"
    )?;
    println!(rt;
        "//! 3 CONTEXTO, 4 UNASSIGNED, and 5 PVALID for a stable code point and else DISALLOWED. A code point that the"
    )?;
    println!(rt; "//! profile leaves out has 6 more.")?;
    println!(rt; "//!")?;
    println!(rt;
        "//! That of the facts, for `ucd_table::get::<8, 16>`: a bit for each fact that is absent, as the"
    )?;
    println!(rt; "//! places of `Fact` have it.")?;
    print_index(rt, "CLASS_INDEX: [u8", &classes.index)?;
    print_words(
        rt,
        "The blocks: eight words of sixteen entries each.",
        "CLASS_WORDS: [u64",
        &classes.words,
    )?;
    print_index(rt, "FACT_INDEX: [u8", &facts.index)?;
    print_words(
        rt,
        "The blocks: sixteen words of eight entries each.",
        "FACT_WORDS: [u64",
        &facts.words,
    )
}

/// The places of the blocks, in decimal numbers: a line has those of 0x800 code points.
fn print_index(rt: &impl Print, array: &str, index: &[u8]) -> io::Result<()> {
    print_head(rt, "The block of each 128 code points.", array, index.len())?;
    for line in index.chunks(16) {
        print_numbers(rt, line)?;
    }
    println!(rt; "];")
}

/// The words of the blocks, in hexadecimal digits, of which the last stand for the first entries.
fn print_words(rt: &impl Print, meaning: &str, array: &str, words: &[u64]) -> io::Result<()> {
    print_head(rt, meaning, array, words.len())?;
    for line in words.chunks(4) {
        print!(rt; "   ")?;
        for word in line {
            print!(rt; " 0x{word:016X},")?;
        }
        println!(rt; "")?;
    }
    println!(rt; "];")
}

/// The lines before the numbers of an array.
fn print_head(rt: &impl Print, meaning: &str, array: &str, len: usize) -> io::Result<()> {
    println!(rt; "")?;
    println!(rt; "/// {meaning}")?;
    println!(rt; "#[rattlefmt::skip]")?;
    println!(rt; "pub(crate) static {array}; {len}] = [")
}

/// One line of decimal numbers.
fn print_numbers<T: Display>(rt: &impl Print, numbers: &[T]) -> io::Result<()> {
    print!(rt; "   ")?;
    for number in numbers {
        print!(rt; " {number},")?;
    }
    println!(rt; "")
}
