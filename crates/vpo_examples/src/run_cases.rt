//! What an assembly text comes to that runs. The texts of each machine stand in `uno_runs`, `pdp11_runs` and `mips_runs`.

/// The most steps as a word, a text, what stands on the input, what is printed, what is told on the error stream, and the status.
pub type RunCase = (
    &'static str,
    &'static [u8],
    &'static [u8],
    &'static [u8],
    &'static [u8],
    u8,
);
