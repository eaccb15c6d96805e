//! Tests of `message_diff`, in a crate of their own so that it is proved once.
#![tactic(auto)]

#[cfg(test)]
mod attributes;
#[cfg(test)]
mod lenient;
#[cfg(test)]
mod lines;
#[cfg(test)]
mod messages;
#[cfg(test)]
mod runs;
#[cfg(test)]
mod settings;
#[cfg(test)]
mod told;
#[cfg(test)]
mod turned;
