//! Which signal of a capture is which line of a bus.
#![tactic(auto)]

mod carrier;
mod fault;
mod mapping;
mod names;
mod role;
mod source;
mod spot;

pub use carrier::{Carrier, carriers_of};
pub use fault::{RoleFault, RoleRefusal};
pub use mapping::Mapping;
pub use names::{Family, Meaning, is_data_strobe, named, plain_of};
pub use role::Role;
pub use source::{Source, sources_of};
pub use spot::{Spot, place_in};
