//! Tests of attributes, of copies and of the names of `link_msg`, beside those of messages.
#![tactic(auto)]

#[cfg(test)]
mod attributes_alone;
#[cfg(test)]
mod copies;
#[cfg(test)]
mod names;
#[cfg(test)]
mod variant_rows;
#[cfg(test)]
mod variants;
