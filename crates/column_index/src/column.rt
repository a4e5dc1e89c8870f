ghost use Rattle.std.specs.Prelude.{◌≤◌, length, IsTrue};
ghost use Rattle.column_index.specs.Kept.{is_made, keys_rows};

use crate::kept::Keys;
use crate::presence::Presence;
use vast_value::Kind;

/// An index of one column: at each row a cell of the column's kind, or none where the row's layout has no such column.
/// `Stands column cells` says that it stands for `cells`, a list with `None` at rows without the column.
///
/// What the indexes keep may end before the last row, where the rows behind have no value.
#[derive(Drop)]
pub struct ColumnIndex {
    pub(crate) kind: Kind,
    pub(crate) has: Presence,
    pub(crate) keys: Keys,
    ghost made: { IsTrue (is_made kind keys) },
    ghost behind: { keys_rows keys ≤ length has },
}
