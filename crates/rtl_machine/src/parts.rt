//! What a machine is made of.

use machine_forms::Prepared;
use machine_step::Running;

/// The transfers of a program's lines, with numbers in place of names and prepared to be made often, and what changes as they are made.
#[derive(Drop)]
pub struct Parts {
    pub code: Vec<Prepared>,
    pub running: Running,
}
