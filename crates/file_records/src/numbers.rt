//! Numbers in bytes, the highest byte first: at the front, with the bytes behind, and pushed behind what is written.

ghost use Rattle.std.specs.Prelude.{◌≡◌, ◌++◌, option_map, OnOk};
ghost use Rattle.std.specs.Int.{w32, w64, to_be_bytes};
ghost use Rattle.file_records.specs.Numbers.{number_front, signed_bytes, signed_front};

use byteorder::{BigEndian, ByteOrder};
use std::alloc::AllocError;

/// The number in the first four bytes, and the bytes behind it; `None` exactly where there are fewer.
pub fn u32_front(bytes: &[u8]) -> Option<(u32, &[u8])>
    ensures { option_map (λ x. (x.0, x.1.now)) result ≡ number_front w32 bytes.now }
{
    match bytes.split_first_chunk::<4>() {
        Some((number, behind)) => Some((u32::from_be_bytes(*number), behind)),
        None => None,
    }
}

/// The number in the first eight bytes, and the bytes behind it; `None` exactly where there are fewer.
pub fn u64_front(bytes: &[u8]) -> Option<(u64, &[u8])>
    ensures { option_map (λ x. (x.0, x.1.now)) result ≡ number_front w64 bytes.now }
{
    match bytes.split_first_chunk::<8>() {
        Some((number, behind)) => Some((u64::from_be_bytes(*number), behind)),
        None => None,
    }
}

/// The signed number in the first four bytes, in two's complement, and the bytes behind it; `None` exactly where there
/// are fewer.
pub fn i32_front(bytes: &[u8]) -> Option<(i32, &[u8])>
    ensures { option_map (λ x. (x.0, x.1.now)) result ≡ signed_front w32 bytes.now }
{
    match bytes.split_first_chunk::<4>() {
        Some((number, behind)) => Some((i32::from_be_bytes(*number), behind)),
        None => None,
    }
}

/// The signed number in the first eight bytes, in two's complement, and the bytes behind it; `None` exactly where there
/// are fewer.
pub fn i64_front(bytes: &[u8]) -> Option<(i64, &[u8])>
    ensures { option_map (λ x. (x.0, x.1.now)) result ≡ signed_front w64 bytes.now }
{
    match bytes.split_first_chunk::<8>() {
        Some((number, behind)) => Some((i64::from_be_bytes(*number), behind)),
        None => None,
    }
}

/// Puts a number at the end, in four bytes.
pub fn push_u32(out: &mut Vec<u8>, number: u32) -> Result<(), AllocError>
    ensures { OnOk result (out.new.items ≡ out.old.items ++ to_be_bytes w32 number) }
{
    let mut bytes = [0u8; 4];
    BigEndian::write_u32(&mut bytes, number);
    out.extend_from_slice(&bytes)
}

/// Puts a number at the end, in eight bytes.
pub fn push_u64(out: &mut Vec<u8>, number: u64) -> Result<(), AllocError>
    ensures { OnOk result (out.new.items ≡ out.old.items ++ to_be_bytes w64 number) }
{
    let mut bytes = [0u8; 8];
    BigEndian::write_u64(&mut bytes, number);
    out.extend_from_slice(&bytes)
}

/// Puts a signed number at the end, in four bytes of two's complement.
pub fn push_i32(out: &mut Vec<u8>, number: i32) -> Result<(), AllocError>
    ensures { OnOk result (out.new.items ≡ out.old.items ++ signed_bytes w32 number) }
{
    out.extend_from_slice(&number.to_be_bytes())
}

/// Puts a signed number at the end, in eight bytes of two's complement.
pub fn push_i64(out: &mut Vec<u8>, number: i64) -> Result<(), AllocError>
    ensures { OnOk result (out.new.items ≡ out.old.items ++ signed_bytes w64 number) }
{
    out.extend_from_slice(&number.to_be_bytes())
}
