//! Tests of `link_nest`, `link_vf` and `link_afspec`, in a crate of their own so that those are proved once.
#![tactic(auto)]

#[cfg(test)]
mod copies_of_members;
#[cfg(test)]
mod entries;
#[cfg(test)]
mod families;
#[cfg(test)]
mod flat_lists;
#[cfg(test)]
mod four_levels;
#[cfg(test)]
mod functions;
#[cfg(test)]
mod kept_lists;
#[cfg(test)]
mod ports;
#[cfg(test)]
mod settings;
#[cfg(test)]
mod settings_of_ipv6;
#[cfg(test)]
mod testing;
#[cfg(test)]
mod what_is_not_so;
#[cfg(test)]
mod wireless_events;
