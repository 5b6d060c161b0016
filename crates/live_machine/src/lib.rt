//! Which cells are live at each place of a code that runs on a described machine.
//!
//! [`live`] is `live_by` of flow_live with the roles that the description gives its registers.
#![tactic(auto)]

mod machine;

pub use machine::live;
