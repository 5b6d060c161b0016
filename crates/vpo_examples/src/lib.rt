//! The top call over objects in memory, by example. It offers nothing: its tests say what no clause of `vpo_top` says, that there is an
//! answer where there is memory.
#![tactic(auto)]

#[cfg(test)]
mod calls;
#[cfg(test)]
mod cases;
#[cfg(test)]
mod mips_runs;
#[cfg(test)]
mod pdp11_runs;
#[cfg(test)]
mod program_tests;
#[cfg(test)]
mod programs;
#[cfg(test)]
mod row_tests;
#[cfg(test)]
mod run_cases;
#[cfg(test)]
mod run_tests;
#[cfg(test)]
mod seen;
#[cfg(test)]
mod tests;
#[cfg(test)]
mod uno_runs;
