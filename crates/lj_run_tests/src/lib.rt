//! Worked examples, computed by hand and run against the public calls, of what only code can hand in: gates, sources and sinks
//! that fail at a place that is chosen, and steps that no run accepts. They stand in a crate of their own, so that no other is
//! proved a second time for its tests. What the program prints and writes is shown by its stored runs.
#![tactic(auto)]

#[cfg(test)]
mod fakes;
#[cfg(test)]
mod gates;
#[cfg(test)]
mod memory_files;
#[cfg(test)]
mod memory_source;
#[cfg(test)]
mod no_watch;
#[cfg(test)]
mod reading;
#[cfg(test)]
mod steps;
#[cfg(test)]
mod streams;
#[cfg(test)]
mod writing;
