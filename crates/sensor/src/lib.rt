// The property list of a Sensor Status message (Mesh Model 1.0): which properties a site names, the list's records, and what each record says.
#![tactic(auto)]

mod header;
pub mod list;
pub mod properties;
pub mod reading;
pub mod status;
