//! Fields at the start of the bytes, decoded without a copy.

ghost use Rattle.std.specs.Prelude.{◌≡◌, ◌≤◌, length, IfOk, IfSome};
ghost use Rattle.cg_names.specs.Grammar.{IsName};
ghost use Rattle.cg_record.specs.Fields.{only, is_name, byte_at, bytes_at, two_at, four_at, eight_at, name_at, named_at, optional_name_at, text_at};
ghost use Rattle.cg_record.specs.Reading.{Gives};
ghost use Rattle.std.specs.Option.{option_copied};

use crate::fault::RecordFault;
use crate::fault::RecordFault::{BadLength, BadName, Short};
use cg_names::Name;

/// Splits off one byte. Reports `Short` if there is none.
#[tactic(auto, unfolding(crate::specs::Fields::byte_at))]
pub fn byte_at(bytes: &[u8]) -> Result<(u8, &[u8]), RecordFault>
    ensures { Gives (λ x. (x.0, x.1.now)) result (byte_at bytes.now) }
{
    match bytes {
        [] => Err(Short),
        [first, rest @ ..] => Ok((*first, rest)),
    }
}

/// Splits off `n` bytes. Reports `Short` if there are fewer.
#[tactic(auto, unfolding(crate::specs::Fields::bytes_at))]
pub fn bytes_at(n: usize, bytes: &[u8]) -> Result<(&[u8], &[u8]), RecordFault>
    ensures gives { Gives (λ x. (x.0.now, x.1.now)) result (bytes_at n bytes.now) }
    ensures len { IfOk result (λ x. length x.0.now ≡ n) }
{
    if bytes.len() < n {
        return Err(Short);
    }
    Ok(bytes.split_at(n))
}

/// Decodes a big-endian number of two bytes.
#[tactic(auto, unfolding(crate::specs::Fields::number_at))]
pub fn two_at(bytes: &[u8]) -> Result<(u16, &[u8]), RecordFault>
    ensures { Gives (λ x. (x.0, x.1.now)) result (two_at bytes.now) }
{
    if bytes.len() < 2 {
        return Err(Short);
    }
    let (front, rest) = bytes.split_at(2);
    let number = u16::from_be_bytes([front[0], front[1]]);
    Ok((number, rest))
}

/// Decodes a big-endian number of four bytes.
#[tactic(auto, unfolding(crate::specs::Fields::number_at))]
pub fn four_at(bytes: &[u8]) -> Result<(u32, &[u8]), RecordFault>
    ensures { Gives (λ x. (x.0, x.1.now)) result (four_at bytes.now) }
{
    if bytes.len() < 4 {
        return Err(Short);
    }
    let (front, rest) = bytes.split_at(4);
    let number = u32::from_be_bytes([front[0], front[1], front[2], front[3]]);
    Ok((number, rest))
}

/// Decodes a big-endian number of eight bytes.
#[tactic(auto, unfolding(crate::specs::Fields::number_at))]
pub fn eight_at(bytes: &[u8]) -> Result<(u64, &[u8]), RecordFault>
    ensures { Gives (λ x. (x.0, x.1.now)) result (eight_at bytes.now) }
{
    if bytes.len() < 8 {
        return Err(Short);
    }
    let (front, rest) = bytes.split_at(8);
    let number = u64::from_be_bytes([
        front[0], front[1], front[2], front[3], front[4], front[5], front[6], front[7],
    ]);
    Ok((number, rest))
}

// Decodes a name of this length.
fn sized_at<const MAX: usize>(size: usize, bytes: &[u8]) -> Result<(&[u8], &[u8]), RecordFault>
    ensures gives { Gives (λ x. (x.0.now, x.1.now)) result (only (is_name MAX) RecordFault.BadName (bytes_at size bytes.now)) }
    ensures name { IfOk result (λ x. IsName MAX x.0.now) }
{
    let (name, rest) = bytes_at(size, bytes)?;
    match Name::<MAX, 0>::fault(name) {
        None => Ok((name, rest)),
        Some(_) => Err(BadName),
    }
}

/// Decodes a name of 1 to `MAX` bytes, with its length byte.
#[tactic(auto, unfolding(crate::specs::Fields::name_at))]
pub fn name_at<const MAX: usize>(bytes: &[u8]) -> Result<(&[u8], &[u8]), RecordFault>
    ensures gives { Gives (λ x. (x.0.now, x.1.now)) result (name_at MAX bytes.now) }
    ensures name { IfOk result (λ x. IsName MAX x.0.now) }
{
    let (size, rest) = byte_at(bytes)?;
    let size = size as usize;
    if !(1 <= size && size <= MAX) {
        return Err(BadName);
    }
    sized_at::<MAX>(size, rest)
}

// Decodes a name of this length; the length 0 is no name.
fn named_at<const MAX: usize>(
    size: usize,
    bytes: &[u8],
) -> Result<(Option<&[u8]>, &[u8]), RecordFault>
    ensures gives { Gives (λ x. (option_copied x.0, x.1.now)) result (named_at MAX size bytes.now) }
    ensures name { IfOk result (λ x. IfSome (option_copied x.0) (IsName MAX)) }
{
    if size == 0 {
        return Ok((None, bytes));
    }
    let (name, rest) = sized_at::<MAX>(size, bytes)?;
    Ok((Some(name), rest))
}

/// Decodes an optional name of at most `MAX` bytes, with its length byte.
#[tactic(auto, unfolding(crate::specs::Fields::optional_name_at))]
pub fn optional_name_at<const MAX: usize>(
    bytes: &[u8],
) -> Result<(Option<&[u8]>, &[u8]), RecordFault>
    ensures gives { Gives (λ x. (option_copied x.0, x.1.now)) result (optional_name_at MAX bytes.now) }
    ensures name { IfOk result (λ x. IfSome (option_copied x.0) (IsName MAX)) }
{
    let (size, rest) = byte_at(bytes)?;
    let size = size as usize;
    if size > MAX {
        return Err(BadName);
    }
    named_at::<MAX>(size, rest)
}

/// Decodes at most `max` opaque bytes, with their four-byte length.
#[tactic(auto, unfolding(crate::specs::Fields::text_at))]
pub fn text_at(max: usize, bytes: &[u8]) -> Result<(&[u8], &[u8]), RecordFault>
    ensures gives { Gives (λ x. (x.0.now, x.1.now)) result (text_at max bytes.now) }
    ensures fits { IfOk result (λ x. length x.0.now ≤ max) }
{
    let (size, rest) = four_at(bytes)?;
    let size = size as usize;
    if size > max {
        return Err(BadLength);
    }
    bytes_at(size, rest)
}
