//! Numbers in bytes, the highest byte first.
ghost use Rattle.std.specs.Prelude.{◌≡◌, slice_index};
ghost use Rattle.std.specs.Int.{w32, w64, from_be_bytes};
ghost use Rattle.bw_journal.specs.Layout.{four, eight};

/// A number in four bytes.
#[tactic(auto, unfolding(crate::specs::Layout::four))]
pub(crate) fn four_of(number: u32) -> [u8; 4]
    ensures { result ≡ four number }
{
    number.to_be_bytes()
}

/// A number in eight bytes.
#[tactic(auto, unfolding(crate::specs::Layout::eight))]
pub(crate) fn eight_of(number: u64) -> [u8; 8]
    ensures { result ≡ eight number }
{
    number.to_be_bytes()
}

/// A byte, or 0 behind the last one.
fn byte_at(bytes: &[u8], at: usize) -> u8
    ensures { result ≡ slice_index bytes.now at }
{
    if at < bytes.len() { bytes[at] } else { 0 }
}

/// The number of the first four bytes, of which each that lacks counts as 0: the least number whose bytes begin so.
pub(crate) fn four_from(bytes: &[u8]) -> u32
    ensures { result ≡ from_be_bytes w32 bytes.now }
{
    u32::from_be_bytes([
        byte_at(bytes, 0),
        byte_at(bytes, 1),
        byte_at(bytes, 2),
        byte_at(bytes, 3),
    ])
}

/// The number of the first eight bytes, of which each that lacks counts as 0.
pub(crate) fn eight_from(bytes: &[u8]) -> u64
    ensures { result ≡ from_be_bytes w64 bytes.now }
{
    u64::from_be_bytes([
        byte_at(bytes, 0),
        byte_at(bytes, 1),
        byte_at(bytes, 2),
        byte_at(bytes, 3),
        byte_at(bytes, 4),
        byte_at(bytes, 5),
        byte_at(bytes, 6),
        byte_at(bytes, 7),
    ])
}
