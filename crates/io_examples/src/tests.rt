//! What outside objects answer, and what comes with the program.

mod descriptions;
mod outside;
