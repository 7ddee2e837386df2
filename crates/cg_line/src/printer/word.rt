//! Single words of reply lines.
ghost use Rattle.std.specs.Prelude.{◌≡◌, [], ◌∷◌, ◌++◌, OnErr, OnOk, decimal};
ghost use Rattle.std.specs.Io.{StartsWith};
ghost use Rattle.hex.specs.Hex.{encode_lower};
ghost use Rattle.cg_line.specs.Replies.{state_word};
ghost use Rattle.cg_line.specs.Words.{bytes_word, name_word};

use cg_group::Phase;
use cg_names::Name;
use itoa::Buffer;
use std::alloc::AllocError;

/// Appends a number in decimal.
pub fn put_number(out: &mut Vec<u8>, number: u64) -> Result<(), AllocError>
    ensures ok { OnOk result (out.new.items ≡ out.old.items ++ decimal number) }
    ensures err { OnErr result (StartsWith out.new.items out.old.items) }
{
    let mut buffer = Buffer::new();
    out.extend_from_slice(buffer.format(number).as_bytes())?;
    Ok(())
}

/// Appends a name, or `-` for no name.
pub fn put_name<const MAX: usize, const SORT: u8>(
    out: &mut Vec<u8>,
    name: &Option<Name<MAX, SORT>>,
) -> Result<(), AllocError>
    ensures ok { OnOk result (out.new.items ≡ out.old.items ++ name_word name.now) }
    ensures err { OnErr result (StartsWith out.new.items out.old.items) }
{
    match name {
        None => out.push(b'-')?,
        Some(name) => out.extend_from_slice(name.as_bytes())?,
    }
    Ok(())
}

// Returns the two lower-case hexadecimal digits of a byte.
fn digits(byte: u8) -> [u8; 2]
    ensures { result ≡ encode_lower (byte ∷ []) }
{
    let mut digits = [0; 2];
    match hex::encode_to_slice(&[byte], &mut digits) {
        Ok(()) => digits,
        Err(_) => unreachable!(),
    }
}

/// Appends bytes as `x` and two lower-case hexadecimal digits for each.
#[tactic(auto, using(crate::proofs::Spaced::lower_each))]
pub fn put_bytes(out: &mut Vec<u8>, bytes: &[u8]) -> Result<(), AllocError>
    ensures ok { OnOk result (out.new.items ≡ out.old.items ++ bytes_word bytes.now) }
    ensures err { OnErr result (StartsWith out.new.items out.old.items) }
{
    out.push(b'x')?;
    for byte in bytes {
        out.extend_from_slice(&digits(*byte))?;
    }
    Ok(())
}

/// Returns Kafka's name for the state of a loaded group (DescribeGroups, group states).
pub fn state_name(phase: Phase) -> &'static [u8]
    ensures { result.now ≡ state_word phase }
{
    match phase {
        Phase::Empty => b"Empty",
        Phase::Preparing => b"PreparingRebalance",
        Phase::Completing => b"CompletingRebalance",
        Phase::Stable => b"Stable",
    }
}
