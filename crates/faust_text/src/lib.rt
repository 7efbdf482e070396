//! Texts as bytes: lines and tokens with their places, numbers, values and hexadecimal bytes as tokens, the fields of a
//! line, the head that the texts of runs share, the causes why a line is refused, and the printed forms. What is read is
//! exactly what the grammar says, and what is printed is read again.
//!
//! `specs/Lines.antt` comes first: what the lines of an input are. `specs/Tokens.antt` says what the tokens of a line
//! are, `specs/Numbers.antt` and `specs/Values.antt` which tokens are numbers, values and bytes, `specs/Fields.antt` what
//! a token means in a field or why it is refused there, `specs/Spelled.antt` the same in other words, `specs/Heads.antt`
//! what the lines of a head are, and `specs/Causes.antt` has the words of the causes.
//!
//! Which lines a text may have behind its head is not said here: that is a matter of each text's own crate.
#![tactic(auto)]

mod cause;
mod cursor;
mod error;
mod field;
mod head;
mod head_text;
mod laws;
mod line;
mod numeral;
mod print;
mod spelling;
mod token;

pub use cause::Cause;
pub use cursor::Cursor;
pub use error::{LineError, ValueError};
pub use head::{Formats, Head, HeadForm, HeadStep, Title};
pub use head_text::put_head;
pub use laws::{
    fields_are_in_range, fields_are_their_spellings, heads_are_their_lines, joined_tokens_are_read,
    lines_are_the_input, numbers_are_their_digits, printed_heads_are_read,
    values_are_their_spellings,
};
pub use line::{Line, Lines, MAX_LINE_LEN, Span, line_at, lines, whole_line};
pub use numeral::{is_number, number, number_between};
pub use print::{put_hex, put_number, put_value};
pub use spelling::{bytes, hex_bytes, value};
pub use token::{Tokens, split_token, tokens};

#[cfg(test)]
mod tests;
