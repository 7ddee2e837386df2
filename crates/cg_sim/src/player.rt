//! The effect of each script line.
ghost use Rattle.std.specs.Prelude.{◌≡◌, ◌⊎◌, ◌<◌, ◌≤◌, ℕ, List, Ok, Err, None, Some, IfErr, IsTrue};
ghost use Rattle.cg_sim.specs.Ending.{IsCause};
ghost use Rattle.cg_sim.specs.Line.{line_of};
ghost use Rattle.cg_sim.specs.Stages.{is_refused, size_of};
ghost use Rattle.cg_sim.specs.declared.line.Line.{Line};
ghost use Rattle.cg_sim.specs.declared.line.Line.TheVariants as form;

use crate::line::{Line, draws_uuid};
use crate::output_lines;
use crate::poke::Poke;
use crate::sector_text::SectorText;
use crate::session_request::Call;
use crate::stage::Stage;
use crate::stop::Stop;
use cg_disk::Crash;
use cg_group::Ticket;
use cg_line::LineFault;
use cg_names::Moment;
use cg_world::Step;
use std::alloc::Global;
use uuid::Uuid;

/// Player of script lines, with the current moment and the number of UUIDs drawn so far.
#[derive(Drop)]
pub struct Player {
    alloc: Global,
    now: Moment,
    drawn: u64,
}

impl Player {
    /// Creates a player at moment 0, before the first UUID.
    pub fn new(alloc: Global) -> Self {
        Player {
            alloc,
            now: Moment::from_millis(0),
            drawn: 0,
        }
    }

    /// Plays the line with this number, and appends what it prints to `out`.
    pub fn play(
        &mut self,
        stage: Stage,
        number: u64,
        text: &[u8],
        out: &mut Vec<u8>,
    ) -> (Stage, Result<(), Stop>)
        ensures err { IfErr result.1 (λ stop. IsCause number stop) }
        ensures order { (line : Line) → line_of text.now ≡ Some line → IsTrue (is_refused stage line) → result.1 ≡ Err (Stop.BadLine number) }
        ensures range { (sector : ℕ) (word : List ℕ) → line_of text.now ≡ Some (form.Poke sector word) → size_of stage ≤ sector → result.1 ≡ Err (Stop.BadLine number) }
        ensures bad { line_of text.now ≡ None → result.1 ≡ Err (Stop.BadLine number) }
        ensures same_size { size_of result.0 ≡ size_of stage }
    {
        match Line::read(text) {
            Some(line) => self.play_line(stage, number, &line, out),
            None => (stage, Err(Stop::BadLine(number))),
        }
    }

    fn play_line(
        &mut self,
        stage: Stage,
        number: u64,
        line: &Line<'_>,
        out: &mut Vec<u8>,
    ) -> (Stage, Result<(), Stop>)
        ensures err { IfErr result.1 (λ stop. IsCause number stop) }
        ensures order { IsTrue (is_refused stage line.now) → result.1 ≡ Err (Stop.BadLine number) }
        ensures range { (sector : ℕ) (word : List ℕ) → line.now ≡ form.Poke sector word → size_of stage ≤ sector → result.1 ≡ Err (Stop.BadLine number) }
        ensures same_size { size_of result.0 ≡ size_of stage }
    {
        if stage.refuses(line) {
            return (stage, Err(Stop::BadLine(number)));
        }
        self.play_allowed(stage, number, line, out)
    }

    // Plays a line that may come here.
    fn play_allowed(
        &mut self,
        stage: Stage,
        number: u64,
        line: &Line<'_>,
        out: &mut Vec<u8>,
    ) -> (Stage, Result<(), Stop>)
        ensures err { IfErr result.1 (λ stop. IsCause number stop) }
        ensures range { (sector : ℕ) (word : List ℕ) → line.now ≡ form.Poke sector word → size_of stage ≤ sector → result.1 ≡ Err (Stop.BadLine number) }
        ensures same_size { size_of result.0 ≡ size_of stage }
    {
        match line {
            Line::Skipped => (stage, Ok(())),
            Line::At(now) => self.wait(stage, *now),
            Line::Tick(now) => self.tick(stage, *now, out),
            Line::Gone(session) => stage.take_step(self.alloc, Step::Gone(*session, self.now), out),
            Line::Take => stage.take_step(self.alloc, Step::Take, out),
            Line::Append => stage.take_step(self.alloc, Step::Append, out),
            Line::Settle => stage.take_step(self.alloc, Step::Settle, out),
            Line::Flush => stage.flush(self.alloc, out),
            Line::Compact(compaction) => stage.compact(self.alloc, *compaction, out),
            Line::Fuse(calls) => (stage.with_fuse(*calls), Ok(())),
            Line::Once(calls) => (stage.with_once(*calls), Ok(())),
            Line::Poke(sector, text) => self.poke(stage, number, *sector, text),
            Line::Stop(crash) => self.stop(stage, *crash),
            Line::Load => self.load(stage, number, out),
            Line::Reload => self.reload(stage, out),
            Line::Close => stage.close(self.alloc, out),
            Line::Ask(session, request) => {
                self.ask(
                    stage,
                    Ticket {
                        session: *session,
                        number,
                    },
                    request.as_bytes(),
                    out,
                )
            }
        }
    }

    fn wait(&mut self, stage: Stage, now: Moment) -> (Stage, Result<(), Stop>)
        ensures ok { result.1 ≡ Ok tt }
        ensures same_size { size_of result.0 ≡ size_of stage }
    {
        self.now = now;
        (stage, Ok(()))
    }

    fn tick(&mut self, stage: Stage, now: Moment, out: &mut Vec<u8>) -> (Stage, Result<(), Stop>)
        ensures err { IfErr result.1 (λ stop. stop ≡ Stop.Memory) }
        ensures same_size { size_of result.0 ≡ size_of stage }
    {
        self.now = now;
        stage.take_step(self.alloc, Step::Tick(now), out)
    }

    // Makes the poke of a line, and puts it down or lets it wait. It needs a sector that the disk has.
    fn poke(
        &self,
        stage: Stage,
        number: u64,
        sector: u64,
        text: &SectorText<'_>,
    ) -> (Stage, Result<(), Stop>)
        ensures range { size_of stage ≤ sector → result.1 ≡ Err (Stop.BadLine number) }
        ensures same_size { size_of result.0 ≡ size_of stage }
        ensures err { sector < size_of stage → IfErr result.1 (λ stop. (stop ≡ Stop.Memory) ⊎ (stop ≡ Stop.Device)) }
    {
        if sector >= stage.sectors() {
            return (stage, Err(Stop::BadLine(number)));
        }
        match Poke::new(self.alloc, sector, text) {
            Ok(poke) => stage.poke(self.alloc, poke),
            Err(_) => (stage, Err(Stop::Memory)),
        }
    }

    fn stop(&self, stage: Stage, crash: Crash) -> (Stage, Result<(), Stop>)
        ensures err { IfErr result.1 (λ stop. stop ≡ Stop.Device) }
        ensures same_size { size_of result.0 ≡ size_of stage }
    {
        let (unloaded, put) = stage.stop(self.alloc, crash);
        (Stage::Unloaded(unloaded), put)
    }

    // Stops and loads again, unless the disk fails in a poke.
    fn reload(&self, stage: Stage, out: &mut Vec<u8>) -> (Stage, Result<(), Stop>)
        ensures err { IfErr result.1 (λ stop. (stop ≡ Stop.Memory) ⊎ (stop ≡ Stop.Device)) }
        ensures same_size { size_of result.0 ≡ size_of stage }
    {
        let (unloaded, put) = stage.stop(self.alloc, Crash::Keep);
        match put {
            Ok(()) => unloaded.load(self.alloc, self.now, out),
            Err(stop) => (Stage::Unloaded(unloaded), Err(stop)),
        }
    }

    // Loads, unless something is loaded.
    fn load(&self, stage: Stage, number: u64, out: &mut Vec<u8>) -> (Stage, Result<(), Stop>)
        ensures err { IfErr result.1 (λ stop. (stop ≡ Stop.Memory) ⊎ (stop ≡ Stop.BadLine number)) }
        ensures same_size { size_of result.0 ≡ size_of stage }
    {
        match stage {
            Stage::Unloaded(unloaded) => unloaded.load(self.alloc, self.now, out),
            stage => (stage, Err(Stop::BadLine(number))),
        }
    }

    // Returns the UUID of a request. A JOIN without a member id draws the next one.
    fn fresh(&mut self, request: &[u8]) -> Uuid {
        if draws_uuid(request) {
            // Saturates only after 2^64 - 1 lines.
            self.drawn = self.drawn.saturating_add(1);
        }
        Uuid::from_u128(u128::from(self.drawn))
    }

    fn ask(
        &mut self,
        stage: Stage,
        ticket: Ticket,
        text: &[u8],
        out: &mut Vec<u8>,
    ) -> (Stage, Result<(), Stop>)
        ensures err { IfErr result.1 (λ stop. (stop ≡ Stop.Memory) ⊎ (stop ≡ Stop.BadLine ticket.number)) }
        ensures same_size { size_of result.0 ≡ size_of stage }
    {
        let fresh = self.fresh(text);
        match cg_line::parse(self.alloc, text) {
            Ok(request) => {
                let call = Call {
                    ticket,
                    request,
                    now: self.now,
                    fresh,
                };
                stage.ask(self.alloc, call, out)
            }
            Err(LineFault::Memory) => (stage, output_lines::put_refusal(ticket, out)),
            Err(LineFault::Malformed) | Err(LineFault::TooLong) => {
                (stage, Err(Stop::BadLine(ticket.number)))
            }
        }
    }
}
