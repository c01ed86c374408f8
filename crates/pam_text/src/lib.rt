//! Text that is read and written: the limits of a file, its lines and the fields of a line; a writer that counts bytes
//! and failures. All other crates build on it.
#![tactic(auto)]

mod blanks;
mod cuts;
mod out;
mod piece;
mod source;
mod text;
mod texts;

pub use blanks::{is_table_blank, is_text_blank, text_blank_len};
pub use cuts::{ByteSet, cut, cut_among};
pub use out::{Device, Out};
pub use piece::Piece;
pub use source::{MAX_FILE_BYTES, Source, SourceFault};
pub use text::{Line, Text};
pub use texts::{Texts, TextsIter};
