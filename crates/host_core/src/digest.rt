//! Bytes that are compared in a time that doesn't tell where they differ.
ghost use Rattle.std.specs.Prelude.{◌≡◌, ◌<◌, ◌^◌, length, bytes_eq};

/// Whether the bytes are equal. It passes over all of them, wherever they differ first.
pub fn same_bytes(a: &[u8], b: &[u8]) -> bool
    requires same_length { length a.now ≡ length b.now }
    requires short { length a.now < 2 ^ 32 }
    ensures { result ≡ bytes_eq a.now b.now }
{
    let mut differing: u32 = 0;
    for i in 0..a.len() {
        differing += u32::from(a[i] != b[i]);
    }
    differing == 0
}
