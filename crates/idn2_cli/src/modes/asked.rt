//! The line that is being answered.

ghost use Rattle.std.specs.Prelude.{◌≤◌, length};
ghost use Rattle.idn_text.specs.declared.body.TheConstants.{MAX_LINE_LEN};

use idn2_options::Form;

/// A line that is being answered.
#[derive(Clone, Copy)]
pub(crate) struct Asked<'a> {
    /// How answers are written.
    pub form: Form,
    /// The number of the line, from 1.
    pub number: u64,
    /// The bytes of the line, without its end.
    pub text: &'a [u8],
    ghost few: { length text.now ≤ MAX_LINE_LEN },
}
