//! Trials of `bw_door` over the system's own sockets: many clients on one thread, each of them heard. They stand apart from
//! it, since a crate with trials of its own is proved twice.
#![tactic(auto)]

#[cfg(test)]
mod acts;
#[cfg(test)]
mod tests;
