//! The options of a run.

use crate::command_line::form::Form;
use crate::command_line::mode::Mode;
use idn_class::Properties;
use std::marker::Model;
use variant_table::Notation;

/// What the words of the command line request. `read_options` keeps the ranges below, and a run
/// requires them.
#[derive(Drop)]
pub struct Options {
    /// What is done with each line, or with the table.
    pub mode: Mode,
    /// Lookup refuses ASCII code points other than letters, digits and hyphens (UseSTD3ASCIIRules
    /// of UTS #46). The other modes don't read it.
    pub std3: bool,
    /// Whose Bidi classes, joining types and viramas labels are tested by. Lookup doesn't read it.
    pub properties: Properties,
    /// The messages of refused lines go on with the cause: those of the input, and a faulty line of the table or of the
    /// registered labels.
    pub explain: bool,
    /// How answers are written. Objects of JSON always tell the cause of a refusal.
    pub form: Form,
    /// The name of the file of the table or ruleset. Empty where the mode has none.
    pub file: String,
    /// How that file is read: as a table or as a ruleset. `Table` where the mode has none.
    pub notation: Notation,
    /// The lines given as words. Where there are none, the standard input is read.
    pub strings: Vec<String>,
    /// The code points that each listed variant is greater than: at most 1,024 scalar values.
    pub after: Vec<u32>,
    /// At most how many variants of a line are listed: 1 to 1,000,000,000, or no limit.
    pub limit: Option<u64>,
    /// At most how many labels of a line are tested: 1 to 1,000,000,000.
    pub tries: u64,
    /// At most how many steps the search for a line's variants takes: 2 to 10^18, or no limit.
    pub steps: Option<u64>,
    /// The name of the file of registered labels among which labels are asked, if there is one.
    pub among: Option<String>,
    /// The label itself is left out of what is found among registered labels, and the end of a block names it.
    pub others: bool,
}

/// Contracts see the bytes of each `String`, and a list for each `Vec`. Of the registered labels only the name of their
/// file is known here.
impl Model for Options {
    ghost use Rattle.std.specs.Prelude.{None, map, option_map, string_bytes};
    ghost use Rattle.idn2_options.specs.Settings.{Settings};

    ghost Value = { Settings };

    ghost view = { λ o. record {
      mode = o.mode;
      std3 = o.std3;
      properties = o.properties;
      explain = o.explain;
      form = o.form;
      file = string_bytes o.file;
      notation = o.notation;
      strings = map string_bytes o.strings.items;
      after = o.after.items;
      limit = o.limit;
      tries = o.tries;
      steps = o.steps;
      among = option_map string_bytes o.among;
      others = o.others;
      registered = None;
    } };
}

impl Options {
    ghost use Rattle.std.specs.Prelude.{◌≡◌};
    ghost use Rattle.idn2_options.specs.Settings.{tells_causes};

    /// Whether the cause of a refusal is told.
    pub fn tells_causes(&self) -> bool
        ensures { result ≡ tells_causes self.now }
    {
        self.explain || self.form == Form::Json
    }
}
