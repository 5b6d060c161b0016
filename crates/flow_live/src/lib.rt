//! Which cells are live at each place of the code of a function.
//!
//! [`Live`] has for each place the cells that are dead there, as temp_machine says: what no path of the flow reads before it is set, where a read
//! for a flag counts where that flag is read in turn. `dead_at` and `dead_after` borrow it.
//!
//! - `rows`: sets of cells, a bit for each.
//! - `kinds`, `standing`: what is asked of a code and of a machine.
//! - `transfers`, `blocks`: what is dead before a transfer, an end and a block.
//! - `settling`: what is dead at the begin of each block.
//! - `tables`, `making`: the table.
#![tactic(auto)]

mod blocks;
mod kinds;
mod making;
mod rows;
mod settling;
mod standing;
mod tables;
mod transfers;

pub use making::live_by;
pub use standing::Roles;
pub use tables::Live;
