//! The items at kept positions.

ghost use Rattle.std.specs.Prelude.{◌≡◌, slice_get};
ghost use Rattle.line_marks.specs.Kept.{ArePositionsIn, items_at};

/// The item of this number among those at the positions, if there are as many.
///
/// At the kept positions of a file it is the kept token of this number, or its place.
pub fn item_at<T: Copy>(items: &[T], positions: &[u32], number: usize) -> Option<T>
    requires inside { ArePositionsIn items.now positions.now }
    ensures { result ≡ slice_get (items_at items.now positions.now) number }
{
    match positions.get(number) {
        Some(position) => Some(items[*position as usize]),
        None => None,
    }
}
