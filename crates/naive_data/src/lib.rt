//! The objects of the file as naive code finds them: an address for each, and their bytes.
//!
//! Each object is at a multiple of a word, behind the one before it. A scalar is a word, also of a character type; an array has its
//! elements, characters as bytes. What isn't listed is 0, and the low byte of a word comes first. specs/Layout.antt is the definition,
//! `IsPlaced` of specs/Placed.antt what the law of naive code asks of objects of the file, and specs/Worked.antt has three objects with
//! their bytes.
//!
//! - `sizes`: how many bytes objects take.
//! - `values`: elements and their bytes.
//! - `objects`: objects in a row.
//! - `law`: the objects of a source within the limits have room; the worked objects.
#![tactic(auto)]

mod law;
mod objects;
mod sizes;
mod values;

pub use law::{have_room, worked_objects};
pub use objects::{Data, place_statics};
