//! What no built program shows, tried by public calls: authentication codes under any key, a header's ends, the values of profiles,
//! sources and sinks of which each call fails, books that act at the same time, and the lines of made sessions. All else is tried over
//! the built programs (tests/cases, tests/checks).
#![tactic(auto)]

#[cfg(test)]
mod asserts;
#[cfg(test)]
mod book_cells_calls;
#[cfg(test)]
mod cbc_cmac_calls;
#[cfg(test)]
mod compact_profiles_calls;
#[cfg(test)]
mod ell_layer_calls;
#[cfg(test)]
mod frame_inspect_calls;
#[cfg(test)]
mod made_input_calls;
#[cfg(test)]
mod meter_address_calls;
#[cfg(test)]
mod meter_slots_calls;
#[cfg(test)]
mod outer_io_calls;
