//! Text as the other crates take it and give it: code points and their UTF-8, the lines of a text,
//! the numbered lines of a reader, texts written to a writer, and the numbers and texts of all
//! refusals.
#![tactic(auto)]

mod body;
mod buffered_reader;
mod character;
mod device;
pub mod hostile;
pub mod laws;
mod lines;
mod point;
mod refusal;
mod text_lines;
mod utf8;
mod write;

pub use body::{Body, MAX_LINE_LEN};
pub use buffered_reader::ReadFault;
pub use character::character_at;
pub use device::{Device, DeviceFault, Sink, Source};
pub use lines::{Line, Lines};
pub use point::{hex_digit, hex_point, is_point};
pub use refusal::Refusal;
pub use text_lines::{TextLines, without_carriage_return};
pub use utf8::{NotUtf8, decode_points, put_points, write_points};
pub use write::{WriteFault, write_text};
