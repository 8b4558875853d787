//! What a construct is to the one around it.

use crate::marks::Marks;

/// What joins need of a part. A part that is left out has no marks and is passable.
#[derive(Drop)]
pub struct Summary {
    /// The marks that are met first.
    pub first: Marks,
    /// The marks after which the part is left.
    pub last: Marks,
    /// Whether control passes it and meets no mark.
    pub passable: bool,
}
