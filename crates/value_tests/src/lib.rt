//! Tests of `nla_wire`, `link_vals`, `link_recs` and `link_vfrec`, in a crate of their own so that those are proved
//! once.
#![tactic(auto)]

#[cfg(test)]
mod counters_order;
#[cfg(test)]
mod enums;
#[cfg(test)]
mod flag_sets;
#[cfg(test)]
mod function_records;
#[cfg(test)]
mod kernel_records;
#[cfg(test)]
mod record_attributes;
#[cfg(test)]
mod testing;
#[cfg(test)]
mod wire_attributes;
#[cfg(test)]
mod wire_fields;
#[cfg(test)]
mod wire_frames;
#[cfg(test)]
mod wire_measured;
#[cfg(test)]
mod wire_numbers;
#[cfg(test)]
mod wire_stores;
#[cfg(test)]
mod wire_values;
#[cfg(test)]
mod wire_writing;
