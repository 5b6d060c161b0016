//! The row of which a text is a line, and what stands in the row's holes.
//!
//! - `tokens`: a text is read token by token.
//! - `registers`, `values`: what a token says of a hole.
//! - `reading`: `find_row`, which tries the rows in order.
//! - `listing`, `finding`, `index`: `RowIndex`, by which the same row is found among those that begin as the text does.
//!
//! specs/Line.antt says what the line of an instance is, specs/Reading.antt what its tokens say, specs/Readable.antt of which descriptions
//! lines can be read, specs/Found.antt what is found, and specs/Index.antt where a row is listed.
#![tactic(auto)]

mod finding;
mod index;
mod listing;
mod reading;
mod registers;
mod tokens;
mod values;

pub use index::RowIndex;
pub use reading::{Values, find_row, row_at};
pub use registers::register_name;
pub use tokens::{Next, are_tokens, next_token};
pub use values::{Value, block_in, symbol_in};
