//! The words of the command line: from words to options.

pub(crate) mod arguments;
pub(crate) mod broken_rule;
pub(crate) mod command;
pub(crate) mod counts;
pub(crate) mod form;
pub(crate) mod given;
pub(crate) mod known;
pub(crate) mod misuse;
pub(crate) mod mode;
pub(crate) mod options;
pub(crate) mod rules;
pub(crate) mod strings;
pub(crate) mod usage;
pub(crate) mod usage_cause;
pub(crate) mod uses;
pub(crate) mod words;
