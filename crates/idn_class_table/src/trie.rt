//! A table of all code points in blocks, of which equal ones are held once.
ghost use Rattle.std.specs.Prelude.{◌<◌, ◌≤◌};

use std::alloc::Global;

/// The code points of a block.
const BLOCK_LEN: u32 = 128;

/// The blocks of Unicode.
const BLOCKS: u32 = 8704;

/// The entries of all code points, in the form that `ucd_table::get` reads.
#[derive(Drop)]
pub(crate) struct Trie {
    /// For each block, its place among the different ones.
    pub(crate) index: Vec<u8>,
    /// The different blocks, one after the other.
    pub(crate) words: Vec<u64>,
}

impl Trie {
    /// The entries that a function gives, each in `BITS` bits. A block takes `SIZE` words, which
    /// is `2 * BITS`.
    pub(crate) fn new<const BITS: usize, const SIZE: usize, F: Fn(u32) -> u32>(
        alloc: Global,
        entry_of: &F,
    ) -> anyhow::Result<Self>
        requires some_bits { 0 < BITS }
        requires few_bits { BITS ≤ 32 }
        requires some_words { 0 < SIZE }
        requires few_words { SIZE ≤ 64 }
        requires is_always_callable { F.IsAlwaysCallable entry_of.now }
    {
        let mut index = Vec::new(alloc);
        let mut words = Vec::new(alloc);
        for number in 0..BLOCKS {
            let block: [u64; SIZE] = block_of::<BITS, SIZE, F>(number, entry_of);
            let place = match words
                .chunks(SIZE)
                .position(|other| other == block.as_slice())
            {
                Some(place) => place,
                None => {
                    let place = words.len() / SIZE;
                    words.extend_from_slice(&block)?;
                    place
                }
            };
            index.push(u8::try_from(place)?)?;
        }
        Ok(Trie { index, words })
    }
}

/// The words of a block; an entry further on stands in higher bits.
fn block_of<const BITS: usize, const SIZE: usize, F: Fn(u32) -> u32>(
    number: u32,
    entry_of: &F,
) -> [u64; SIZE]
    requires some_bits { 0 < BITS }
    requires few_bits { BITS ≤ 32 }
    requires block { number < BLOCKS }
    requires is_always_callable { F.IsAlwaysCallable entry_of.now }
{
    let mut entries = [0; 128];
    for place in 0..BLOCK_LEN {
        entries[place as usize] = u64::from(entry_of(number * BLOCK_LEN + place));
    }
    let mut block = [0; SIZE];
    for (word, slots) in block.iter_mut().zip(entries.chunks(64 / BITS)) {
        for entry in slots.iter().rev() {
            *word = *word << BITS | *entry;
        }
    }
    block
}
