//! What the encoding of commands is.
//! The decoder of a payload.
ghost use Rattle.std.specs.Prelude.{◌≡◌, Ok, ℕ, ◌<◌, List, length, take, IfOk, MatchResult};
ghost use Rattle.cg_record.specs.Lawful.{AreCommands};
ghost use Rattle.cg_record.specs.Payloads.{IsText, told};
ghost use Rattle.cg_record.specs.Reading.{commands_of, Fails, Tells};
ghost use Rattle.cg_record.specs.Spelling.{spelling, IsPayload, payload};
ghost use Rattle.cg_record.specs.declared.command.Command.{Command};
ghost use Rattle.cg_record.specs.declared.format.Version.{Version};
ghost use Rattle.cg_record.specs.Cutting.{IsCutShort};
ghost use Rattle.cg_record.specs.Saying.{CanSayAll};

use crate::command::Command;
use crate::command_check::check;
use crate::command_decoder::build;
use crate::fault::RecordFault;
use std::alloc::Global;

/// States in its contract what a payload that `write` makes is: it decodes to its commands, and they are lawful. Returns it.
pub fn spelling_of(bytes: &[u8]) -> &[u8]
    requires { IsText bytes.now }
    ensures same { result.now ≡ bytes.now }
    ensures decoded { commands_of result.now ≡ Ok (told bytes.now) }
    ensures spelled { result.now ≡ spelling (told bytes.now) }
    ensures lawful { AreCommands (told bytes.now) }
{
    bytes
}

// Returns the fault to report after building met this one: if an allocation failed, a fault of the bytes comes first.
#[tactic(auto, using(crate::proofs::Told::commands_tell, crate::proofs::Told::fails_tells))]
fn fault_to_tell(fault: RecordFault, bytes: &[u8]) -> RecordFault
    ensures { Fails fault (commands_of bytes.now) → Tells result (commands_of bytes.now) }
{
    match fault {
        RecordFault::Memory => match check(bytes) {
            Ok(()) => RecordFault::Memory,
            Err(found) => found,
        },
        _ => fault,
    }
}

fn read_or_tell(alloc: Global, bytes: &[u8]) -> Result<Vec<Command>, RecordFault>
    ensures { MatchResult result
        (λ v. commands_of bytes.now ≡ Ok v.items)
        (λ fault. Tells fault (commands_of bytes.now)) }
{
    build(alloc, bytes).map_err(|fault| fault_to_tell(fault, bytes))
}

/// Decodes the commands of a payload, up to its end; a payload of the version byte alone has none. Time and memory are
/// linear in the bytes, except that each entry, partition and member is compared with those before it in its command,
/// `ENTRIES_MAX` at most. If an allocation fails, a second pass without an allocation looks for a fault of the bytes.
pub fn read(alloc: Global, bytes: &[u8]) -> Result<Vec<Command>, RecordFault>
    // The bytes are the encoding of the commands in some version that can say them.
    ensures found { IfOk result (λ v. AreCommands v.items × IsPayload v.items bytes.now) }
    // Every such encoding is decoded, unless an allocation fails.
    ensures only { (commands : List Command) → AreCommands commands → IsPayload commands bytes.now →
        MatchResult result (λ v. v.items ≡ commands) (λ fault. fault ≡ RecordFault.Memory) }
    // The fault is the first from left to right; `Memory` only if the bytes have none.
    ensures exact { MatchResult result
        (λ v. commands_of bytes.now ≡ Ok v.items)
        (λ fault. Tells fault (commands_of bytes.now)) }
{
    read_or_tell(alloc, bytes)
}

/// A payload that is cut off ends inside a field, or is the payload of its first commands.
#[tactic(auto, using(crate::proofs::Cuts::cut_payload))]
pub fn payload_is_cut_short()
    ensures { (version : Version) (commands : List Command) (n : ℕ) → AreCommands commands → CanSayAll version commands → n < length (payload version commands) →
        IsCutShort version commands (take n (payload version commands)) }
{}
