//! The tests of `replay`, which call it as a program does: whole runs over sources and a sink in memory.
#![tactic(auto)]

#[cfg(test)]
mod runs;
