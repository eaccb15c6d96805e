//! Tests of `link_msg`, in a crate of their own so that it is proved once.
#![tactic(auto)]

#[cfg(test)]
mod attribute_values;
#[cfg(test)]
mod before_faults;
#[cfg(test)]
mod damaged_lists;
#[cfg(test)]
mod empty_ports;
#[cfg(test)]
mod fault_paths;
#[cfg(test)]
mod fault_places;
#[cfg(test)]
mod lenient_reading;
#[cfg(test)]
mod list_values;
#[cfg(test)]
mod long_inputs;
#[cfg(test)]
mod longer_records;
#[cfg(test)]
mod longest_messages;
#[cfg(test)]
mod messages;
#[cfg(test)]
mod refusal_places;
#[cfg(test)]
mod refused_messages;
#[cfg(test)]
mod rows;
#[cfg(test)]
mod sent_messages;
#[cfg(test)]
mod sized_kinds;
#[cfg(test)]
mod testing;
#[cfg(test)]
mod whole_messages;
