//! The lines that a script prints. Each is appended whole, or not at all if an allocation fails.
ghost use Rattle.std.specs.Prelude.{◌≡◌, ◌++◌, Err, None, Some, IfErr, OnOk};
ghost use Rattle.std.specs.List.{flat_map};
ghost use Rattle.cg_desk.specs.Outgoings.{answer};
ghost use Rattle.cg_group_state.specs.declared.reply.Reply.TheVariants.{Refused};
ghost use Rattle.cg_names.specs.declared.code.Code.TheVariants.{UnknownServerError};
ghost use Rattle.cg_sim.specs.Telling.{abort_text, compact_fault_text, note_text, open_fault_text, opening_text, replies_text, reply_text, trace_text};

use crate::stop::Stop;
use cg_desk::{Outgoing, ReplyToken};
use cg_group::{Listed, Ticket};
use cg_names::Code;
use cg_store::{CompactFault, OpenFault, Progress};
use cg_world::{StepNote, StopCause, Trace};
use itoa::Buffer;
use std::alloc::{AllocError, Global};

// Appends a session and the line of its reply.
#[tactic(auto, unfolding(crate::specs::Telling::reply_text))]
fn put_line(outgoing: &Outgoing, out: &mut Vec<u8>) -> Result<(), AllocError>
    ensures { OnOk result (out.new.items ≡ out.old.items ++ reply_text outgoing.now) }
{
    let mut buffer = Buffer::new();
    out.push(b's')?;
    out.extend_from_slice(buffer.format(outgoing.ticket().session).as_bytes())?;
    out.push(b' ')?;
    cg_line::print_into(outgoing.reply(), out)?;
    out.push(b'\n')?;
    Ok(())
}

/// Prints a reply.
pub fn put_reply(outgoing: &Outgoing, out: &mut Vec<u8>) -> Result<(), Stop>
    ensures ok { OnOk result (out.new.items ≡ out.old.items ++ reply_text outgoing.now) }
    ensures err { IfErr result (λ stop. stop ≡ Stop.Memory) }
{
    let whole = out.len();
    match put_line(outgoing, out) {
        Ok(()) => Ok(()),
        Err(_) => {
            out.truncate(whole);
            Err(Stop::Memory)
        }
    }
}

/// Prints the refusal of a request that ran out of memory.
pub fn put_refusal(ticket: Ticket, out: &mut Vec<u8>) -> Result<(), Stop>
    ensures ok { OnOk result (out.new.items ≡ out.old.items ++ reply_text (answer ticket (Refused UnknownServerError) 0)) }
    ensures err { IfErr result (λ stop. stop ≡ Stop.Memory) }
{
    put_reply(
        &ReplyToken::new(ticket).refuse(Code::UnknownServerError),
        out,
    )
}

/// Prints replies in their order.
pub fn put_all(replies: &[Outgoing], out: &mut Vec<u8>) -> Result<(), Stop>
    ensures ok { OnOk result (out.new.items ≡ out.old.items ++ replies_text replies.now) }
    ensures err { IfErr result (λ stop. stop ≡ Stop.Memory) }
{
    for outgoing in replies {
        put_reply(outgoing, out)?;
    }
    Ok(())
}

// Returns the line of a refused step; any other step has an empty one.
#[tactic(auto, unfolding(crate::specs::Telling::note_text))]
fn note_line(note: StepNote) -> &'static [u8]
    ensures { result.now ≡ note_text note }
{
    match note {
        StepNote::Done | StepNote::More | StepNote::Nothing => b"",
        StepNote::InFlight => b"FAULT InFlight\n",
        StepNote::Full => b"FAULT Full\n",
        StepNote::NoRoom => b"FAULT NoRoom\n",
        StepNote::WrongPhase => b"FAULT WrongPhase\n",
        StepNote::Failed => b"FAULT Failed\n",
        StepNote::Device => b"FAULT Device\n",
    }
}

fn put_notes(notes: &[StepNote], out: &mut Vec<u8>) -> Result<(), Stop>
    ensures ok { OnOk result (out.new.items ≡ out.old.items ++ flat_map note_text notes.now) }
    ensures err { IfErr result (λ stop. stop ≡ Stop.Memory) }
{
    for note in notes {
        out.extend_from_slice(note_line(*note))?;
    }
    Ok(())
}

fn put_left(left: &[Listed<Outgoing>], out: &mut Vec<u8>) -> Result<(), Stop>
    ensures ok { OnOk result (out.new.items ≡ out.old.items ++ flat_map replies_text left.now) }
    ensures err { IfErr result (λ stop. stop ≡ Stop.Memory) }
{
    for replies in left {
        put_all(replies.as_slice(), out)?;
    }
    Ok(())
}

/// Prints why steps were refused, then the replies that left in them. If a step other than a request runs out of
/// memory, ends the script.
pub fn put_trace(trace: &Trace, out: &mut Vec<u8>) -> Result<(), Stop>
    ensures ok { OnOk result (out.new.items ≡ out.old.items ++ trace_text trace.now) }
    ensures wanting { trace.now.last ≡ None → trace.now.stopped ≡ Some StopCause.Memory → result ≡ Err Stop.Memory }
    ensures err { IfErr result (λ stop. stop ≡ Stop.Memory) }
{
    put_notes(trace.notes.as_slice(), out)?;
    put_left(trace.out.as_slice(), out)?;
    match (&trace.last, trace.stopped) {
        (Some(refused), _) => put_reply(refused, out),
        (None, Some(StopCause::Memory)) => Err(Stop::Memory),
        (None, _) => Ok(()),
    }
}

// Returns the line of a refused compaction call; out of memory has none.
#[tactic(auto, unfolding(crate::specs::Telling::compact_fault_text))]
fn compact_fault_line(fault: CompactFault) -> &'static [u8]
    ensures { result.now ≡ compact_fault_text fault }
{
    match fault {
        CompactFault::Memory => b"",
        CompactFault::Device => b"FAULT Device\n",
        CompactFault::NoRoom => b"FAULT NoRoom\n",
        CompactFault::WrongPhase => b"FAULT WrongPhase\n",
        CompactFault::Failed => b"FAULT Failed\n",
    }
}

/// Prints why a compaction was not given up.
pub fn put_abort(aborted: Result<Progress, CompactFault>, out: &mut Vec<u8>) -> Result<(), Stop>
    ensures ok { OnOk result (out.new.items ≡ out.old.items ++ abort_text aborted) }
    ensures err { IfErr result (λ stop. stop ≡ Stop.Memory) }
{
    if let Err(fault) = aborted {
        out.extend_from_slice(compact_fault_line(fault))?;
    }
    Ok(())
}

/// Prints how many commands, group records and offsets a load found.
pub fn put_opening(alloc: Global, opening: (u64, u64, u64), out: &mut Vec<u8>) -> Result<(), Stop>
    ensures ok { OnOk result (out.new.items ≡ out.old.items ++ opening_text opening) }
    ensures err { IfErr result (λ stop. stop ≡ Stop.Memory) }
{
    let (number, records, offsets) = opening;
    let text = format!(in alloc; "LOADED {number} {records} {offsets}\n")?;
    out.extend_from_slice(text.as_bytes())?;
    Ok(())
}

// Returns the line for a load that failed; out of memory has none.
fn open_fault_line(fault: OpenFault) -> &'static [u8]
    ensures { result.now ≡ open_fault_text fault }
{
    match fault {
        OpenFault::Memory => b"",
        OpenFault::Device => b"FAULT Device\n",
        OpenFault::NoRoot => b"FAULT NoRoot\n",
        OpenFault::BadRoot => b"FAULT BadRoot\n",
        OpenFault::BadFrame => b"FAULT BadFrame\n",
        OpenFault::BadRecord => b"FAULT BadRecord\n",
    }
}

/// Prints why a load failed. Out of memory ends the script.
pub fn put_open_fault(fault: OpenFault, out: &mut Vec<u8>) -> Result<(), Stop>
    ensures ok { OnOk result (out.new.items ≡ out.old.items ++ open_fault_text fault) }
    ensures wanting { fault ≡ OpenFault.Memory → result ≡ Err Stop.Memory }
    ensures err { IfErr result (λ stop. stop ≡ Stop.Memory) }
{
    if fault == OpenFault::Memory {
        return Err(Stop::Memory);
    }
    out.extend_from_slice(open_fault_line(fault))?;
    Ok(())
}
