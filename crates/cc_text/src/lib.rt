//! Sources compiled: from the bytes of a source and an accepted machine to the bytes of an assembly text.
//!
//! - `sources`: the typed tree of a source, or the first rule that it breaks.
//! - `compiling`: `compile_text`.
//! - `laws`: no source is both accepted and refused.
//!
//! specs/Sources.antt says which sources are accepted, and specs/Texts.antt what is written for them.
#![tactic(auto)]

mod compiling;
pub mod laws;
mod sources;

pub use compiling::compile_text;
