//! Tests that are noted, one for each byte of a text.
ghost use Rattle.std.specs.Prelude.{◌≡◌, ◌++◌, false, drop, replicate, slice_index_or, IsTrue, OnOk};

use element_name::NoMemory;

/// The bit at a place; false past the end.
pub(crate) fn bit_at(bits: &[bool], place: usize) -> bool
    ensures { result ≡ slice_index_or bits.now place false }
{
    match bits.get(place) {
        Some(bit) => *bit,
        None => false,
    }
}

/// The bits from a place on; none past the end.
pub(crate) fn bits_from(bits: &[bool], place: usize) -> &[bool]
    ensures { result.now ≡ drop place bits.now }
{
    if place > bits.len() {
        return &bits[bits.len()..];
    }
    &bits[place..]
}

/// Puts a bit last, so many times.
pub(crate) fn put_times(bits: &mut Vec<bool>, times: u8, bit: bool) -> Result<(), NoMemory>
    ensures { OnOk result (bits.new.items ≡ bits.old.items ++ replicate times bit) }
{
    for n in 0..times {
        bits.push(bit)?;
    }
    Ok(())
}

/// Whether both are the same.
pub(crate) fn are_same_bits(bits: &[bool], others: &[bool]) -> bool
    ensures { IsTrue result → bits.now ≡ others.now }
{
    if bits.len() != others.len() {
        return false;
    }
    for place in 0..bits.len() {
        if bits[place] != others[place] {
            return false;
        }
    }
    true
}
