//! What stands on a meter's label, and the address that says the same: maker, identification, version and device type.
#![tactic(auto)]

mod device_types;
mod label;
mod laws;
mod reading;
mod texts;

pub use device_types::device_type_word;
pub use label::Label;
pub use laws::labels_and_addresses_agree;
pub use reading::{LabelFault, read_label};
pub use texts::put_label;
