//! Serving one line.
ghost use Rattle.std.specs.Prelude.{◌≡◌, ℕ, List, Option, MatchResult, OnOk};
ghost use Rattle.cg_request.specs.declared.request.Request.{Request};
ghost use Rattle.cg_group_state.specs.declared.reply.Reply.{Reply};
ghost use Rattle.cg_line.specs.Calls.{Made, TransportCall};
ghost use Rattle.cg_line.specs.Lines.{Asks};
ghost use Rattle.cg_line.specs.Replies.{reply_line};
ghost use Rattle.cg_line.specs.Running.{Turns, ended};
ghost use Rattle.cg_line.specs.Stream.{Answers, Done};

use crate::backend::Backend;
use crate::put_reply;
use crate::stream::asked_line::{Asked, Refusal};
use crate::stream::writer::put;
use crate::stream_end::RunFault;
use crate::transport::Transport;
use cg_group::{Reply, Request};
use std::alloc::AllocError;

// Replaces the text with the line of a reply and its line feed.
fn print_ended(reply: &Reply, text: &mut Vec<u8>) -> Result<(), AllocError>
    ensures { OnOk result (text.new.items ≡ ended (reply_line reply.now)) }
{
    text.clear();
    put_reply(reply, text)
}

// Asks the backend, and prints its reply.
fn ask<B: Backend>(request: Request, text: &mut Vec<u8>, backend: &mut B) -> Result<(), Refusal>
    ensures { (reply : Reply) × B.gives backend.old request reply backend.new
        × MatchResult result (λ _. text.new.items ≡ ended (reply_line reply)) (λ refusal. refusal ≡ Refusal.Memory) }
{
    let reply = backend.answer(request);
    match print_ended(&reply, text) {
        Ok(()) => Ok(()),
        Err(_) => Err(Refusal::Memory),
    }
}

// Replaces the text with the reply to a request, or returns the refusal.
fn answer<B: Backend>(asked: Asked, text: &mut Vec<u8>, backend: &mut B) -> Result<(), Refusal>
    ensures { (line : List ℕ) → Asks line asked → (call : Option (Request × Reply)) × Turns B.gives backend.old call backend.new × Answers line call result text.new.items }
{
    match asked {
        Asked::Request(request) => ask(request, text, backend),
        Asked::Refusal(refusal) => Err(refusal),
    }
}

/// Writes what a line asks for: the reply of the backend to its request, or its refusal.
pub fn reply<T: Transport, B: Backend>(
    asked: Asked,
    text: &mut Vec<u8>,
    transport: &mut T,
    backend: &mut B,
) -> Result<(), RunFault>
    ensures { (line : List ℕ) → Asks line asked → (writes : List TransportCall) × Made T.does transport.old writes transport.new × Done B.gives line backend.old backend.new writes result }
{
    match answer(asked, text, backend) {
        Ok(()) => put(transport, text),
        Err(refusal) => put(transport, refusal.line()),
    }
}
