//! XML 1.0 as text: documents without a document type, as a list of what their tags and the text between these say.
#![tactic(auto)]

mod attribute;
mod body;
mod bytes;
mod characters;
mod declaration;
mod document;
mod document_state;
mod fault;
mod gathered;
mod laws;
mod lines;
mod names;
mod quote;
mod reference;
mod repeats;
mod run;
mod state;
mod tag;
mod token;

pub use attribute::{Attribute, Tag, TagKind};
pub use bytes::is_blank;
pub use characters::first_wrong_character;
pub use document::{begins_as_xml, read_document};
pub use fault::{DocumentError, Place, ReadError};
pub use laws::{
    a_text_begins_with_one_tag, a_text_is_one_document, a_text_that_stops_is_no_document,
    definitions_give_the_examples,
};
pub use reference::referenced;
pub use tag::read_tag;
pub use token::{Said, Token};
