//! Look-ups in rows that rise by their key.

ghost use Rattle.std.specs.Prelude.{◌≡◌, ◌==◌, true, position, find, option_copied};
ghost use Rattle.diag_setup.specs.Rows.{is_rising};

use diag_setup::Keyed;

/// The index of the row of a key.
pub fn find_place<T: Keyed>(rows: &[T], key: u32) -> Option<usize>
    requires { is_rising T.key_of rows.now ≡ true }
    ensures { result ≡ position (λ row. T.key_of row == key) rows.now }
{
    rows.binary_search_by_key(&key, |row| row.key()).ok()
}

/// The row of a key.
pub fn find_row<T: Keyed>(rows: &[T], key: u32) -> Option<&T>
    requires { is_rising T.key_of rows.now ≡ true }
    ensures { option_copied result ≡ find (λ row. T.key_of row == key) rows.now }
{
    match find_place(rows, key) {
        Some(place) => Some(&rows[place]),
        None => None,
    }
}
