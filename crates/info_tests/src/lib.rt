//! Tests of `link_info`, in a crate of their own so that it is proved once.
#![tactic(auto)]

#[cfg(test)]
mod built;
#[cfg(test)]
mod fields;
#[cfg(test)]
mod kinds;
#[cfg(test)]
mod memory;
#[cfg(test)]
mod styles;
#[cfg(test)]
mod values;
#[cfg(test)]
mod written;
