//! What one turn of a loop gives.

/// What one turn of a loop gives.
#[derive(Drop)]
pub enum Turn<S, A> {
    /// The loop goes on with this.
    Again(S),
    /// The loop ends with this.
    Done(A),
}
