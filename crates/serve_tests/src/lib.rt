//! The tests of a server: links in memory and drives in memory, served by threads of their own until a gate says to stop.
#![tactic(auto)]

#[cfg(test)]
mod crowd_tests;
#[cfg(test)]
mod durable_tests;
#[cfg(test)]
mod fault_tests;
#[cfg(test)]
mod gate_tests;
#[cfg(test)]
mod gates;
#[cfg(test)]
mod links;
#[cfg(test)]
mod site;
