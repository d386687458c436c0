// The lines of a text, what each is (a month, a comment, blank, or indented) and its words. Serves the months of a text, what is said of
// a line, and the programs that run files of vectors.
#![tactic(auto)]

mod kind;
mod line_words;
mod places;
mod text_lines;

pub use kind::{Kind, has_mark, kind_of};
pub use line_words::{Words, up_to};
pub use text_lines::{Line, Lines};
