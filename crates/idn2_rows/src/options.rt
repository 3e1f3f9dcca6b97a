//! The greatest numbers that the words of a command line request. conformance/ has runs with each option.
use idn2_options::{Options, input_text, read_options};
use std::alloc::Global;
use std::test::Fail;

/// The options of a command line, which is written with `|` between its words.
pub fn options_of(alloc: Global, line: &str) -> Result<Options, Fail> {
    let mut words = Vec::new(alloc);
    for word in line.split('|') {
        words.push(String::from_str(alloc, word)?)?;
    }
    Ok(read_options(alloc, &words)?)
}

#[test]
fn greatest_numbers(rt: HostRuntime) -> Result<(), Fail> {
    let options = options_of(
        rt.alloc(),
        "idn2|--variants=t|--limit=1000000000|--tries=1000000000|--steps=1000000000000000000|a|b",
    )?;
    assert_eq!(rt;
        (options.limit, options.tries, options.steps),
        (
            Some(1_000_000_000),
            1_000_000_000,
            Some(1_000_000_000_000_000_000)
        )
    );
    let input = input_text(rt.alloc(), &options)?;
    assert_eq!(rt; input.as_deref(), Some(b"a\nb\n".as_slice()));
    Ok(())
}
