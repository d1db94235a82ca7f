//! Bytes in a fixed row.
ghost use Rattle.std.specs.Prelude.{◌≡◌, ◌≤◌, length};
ghost use Rattle.element_name.specs.Rows.{row_from};

/// The bytes, and zeros behind them. Takes time in the row's length.
pub(crate) fn padded<const N: usize>(bytes: &[u8]) -> [u8; N]
    requires { length bytes.now ≤ N }
    ensures { result ≡ row_from N bytes.now }
{
    let mut row = [0; N];
    row[..bytes.len()].copy_from_slice(bytes);
    row
}
