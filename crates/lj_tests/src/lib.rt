//! Examples that need a value which only code can make, run against public calls below the runs. They stand in a crate of
//! their own, so that no other is proved a second time for its tests. All other examples are scripts.
#![tactic(auto)]

#[cfg(test)]
mod book;
#[cfg(test)]
mod numbers;
#[cfg(test)]
mod propagations;
#[cfg(test)]
mod readers;
#[cfg(test)]
mod shared;
#[cfg(test)]
mod tables;
#[cfg(test)]
mod waiting;
