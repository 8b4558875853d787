//! Line markers and tokens that the parser passes over.
#![tactic(auto)]

mod balance;
mod file_names;
mod kept;
pub mod laws;
mod place;
mod stop;
mod stripping;

pub use kept::item_at;
pub use place::{Place, Places, places_of};
pub use stop::StripStop;
pub use stripping::strip;
