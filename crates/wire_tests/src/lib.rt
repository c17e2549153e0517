//! The tests of the crates of the wire, which call each of them as the crates above do.
#![tactic(auto)]

#[cfg(test)]
mod body_tests;
#[cfg(test)]
mod conn_tests;
#[cfg(test)]
mod links_tests;
#[cfg(test)]
mod reply_tests;
#[cfg(test)]
mod report_tests;
#[cfg(test)]
mod route_tests;
#[cfg(test)]
mod wire_http_tests;
