//! The input that the words give.
ghost use Rattle.std.specs.Prelude.{◌≡◌, [], IfOk, None, Ok, map, option_map, string_bytes};
ghost use Rattle.idn2_options.specs.Inputs.{input_of, text_of};

use crate::command_line::options::Options;
use std::alloc::{AllocError, Global};

/// The STRINGS, each followed by a line feed, or `None` where there are none, which takes no memory.
pub fn input_text(alloc: Global, options: &Options) -> Result<Option<Vec<u8>>, AllocError>
    ensures text { IfOk result (λ text. option_map (λ bytes. bytes.items) text ≡ input_of options.now.strings) }
    ensures none { options.now.strings ≡ [] → result ≡ Ok None }
{
    if options.strings.is_empty() {
        return Ok(None);
    }
    let text = text_of(alloc, &options.strings)?;
    Ok(Some(text))
}

fn text_of(alloc: Global, strings: &[String]) -> Result<Vec<u8>, AllocError>
    ensures { IfOk result (λ text. text.items ≡ text_of (map string_bytes strings.now)) }
{
    let mut text = Vec::new(alloc);
    for string in strings {
        text.extend_from_slice(string.as_bytes())?;
        text.push(b'\n')?;
    }
    Ok(text)
}
