//! A table of words in which one look finds a word.

ghost use Rattle.std.specs.Prelude.{◌<◌, ◌^◌, length, IsTrue, nat_lt};
ghost use Rattle.std.specs.List.{Contains, list_all};
ghost use Rattle.c_lexer.specs.Finds.{Finds};
ghost use Rattle.c_lexer.specs.WordTable.{are_placed, rows_of};

/// The number of a word in a table.
///
/// `positions` holds, at the slot of each word of the table, the position of the word's row.
pub(crate) fn look_up(table: &[(&[u8], u8)], positions: &[u8; 256], word: &[u8]) -> Option<u8>
    requires some { 0 < length word.now }
    requires short { length word.now < 2 ^ 32 }
    requires within { IsTrue (list_all (λ at. nat_lt at (length table.now)) positions.now) }
    requires placed { IsTrue (are_placed (rows_of table.now) 0 positions.now) }
    ensures { Finds (λ number. Contains (rows_of table.now) (word.now, number)) result }
{
    let len = word.len();
    let first = word[0] as usize;
    let inner = word[len * 2 / 3] as usize;
    let last = word[len - 1] as usize;
    let slot = (23 * len + 29 * first + 63 * inner + 19 * last) % 256;
    let (spelling, number) = table[positions[slot] as usize];
    if spelling == word { Some(number) } else { None }
}
