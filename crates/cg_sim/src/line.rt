//! Parsing script lines. No function here allocates.
ghost use Rattle.std.specs.Prelude.{◌≡◌};
ghost use Rattle.std.specs.Option.{option_map};
ghost use Rattle.cg_line.specs.Numbers.{number_of};
ghost use Rattle.cg_sim.specs.Text.{draws_uuid, is_skipped, joiner_of};
ghost use Rattle.cg_sim.specs.declared.text.TheConstants.{NUMBER_MAX};

use crate::compaction::{CompactStep, Compaction};
use crate::request_line::RequestLine;
use crate::sector_text::SectorText;
use crate::text::{self, NUMBER_MAX};
use cg_disk::Crash;
use cg_line::LINE_BYTES_MAX;
use cg_line::decimal::number;
use cg_names::Moment;

/// Longest script line, in bytes without its line feed: the longest request line, and room for the session before it.
pub const SCRIPT_LINE_BYTES_MAX: usize = LINE_BYTES_MAX + 64;

/// Line of a script.
#[derive(Drop)]
pub enum Line<'a> {
    /// A blank line or a comment.
    Skipped,
    /// `at M`: sets the moment, in milliseconds.
    At(Moment),
    /// `tick M`: sets the moment, in milliseconds, and runs the time-dependent rules.
    Tick(Moment),
    /// `gone s<digits>`: the session with this number is closed.
    Gone(u64),
    /// `take`: the desk hands out the next batch.
    Take,
    /// `append`: the store appends the batch that was taken.
    Append,
    /// `settle`: the desk settles the batch that was appended.
    Settle,
    /// `flush`: take, append and settle.
    Flush,
    /// `compact`, alone or with a word: a compaction, or a part of one.
    Compact(Compaction),
    /// `fuse K`: the disk passes K more calls, and then fails every call (fault injection).
    Fuse(u64),
    /// `once K`: the disk passes K more calls, and then fails one call (fault injection).
    Once(u64),
    /// `poke S xBYTES`: the sector with this number holds these bytes, then zeros.
    Poke(u64, SectorText<'a>),
    /// `stop keep` or `stop lose`: power loss, which keeps or loses unsynced writes.
    Stop(Crash),
    /// `load`: opens the store and serves what it has.
    Load,
    /// `reload`: `stop keep`, then `load`.
    Reload,
    /// `close`: refuses every pending request, then acts as `stop keep`.
    Close,
    /// `s<digits> <request line>`: the number of a session, and its request line, which is not parsed yet.
    Ask(u64, RequestLine<'a>),
}

impl<'a> Line<'a> {
    ghost use Rattle.cg_sim.specs.Line.{compact_line_of, line_of, may_follow_poke, poke_line_of, power_line_of, step_line_of, word_line_of, worded_line_of};

    /// Parses a script line. Returns `None` if it is a bad one.
    #[tactic(auto, unfolding(crate::specs::Line::line_of))]
    pub fn read(text: &'a [u8]) -> Option<Self>
        ensures { result ≡ line_of text.now }
    {
        if text.len() > SCRIPT_LINE_BYTES_MAX {
            return None;
        }
        if is_skipped(text) {
            return Some(Line::Skipped);
        }
        if let Some(line) = Line::step_line(text) {
            return Some(line);
        }
        if let Some(line) = Line::compact_line(text) {
            return Some(line);
        }
        if let Some(line) = Line::power_line(text) {
            return Some(line);
        }
        Line::worded_line(text)
    }

    // Parses a line with a first word and a rest.
    #[tactic(auto, unfolding(crate::specs::Line::worded_line_of))]
    fn worded_line(text: &'a [u8]) -> Option<Self>
        ensures { result ≡ worded_line_of text.now }
    {
        let (word, rest) = text::cut(text, b' ')?;
        Line::word_line(word, rest)
    }

    // Parses a step of the desk or the store.
    #[tactic(auto, unfolding(crate::specs::Line::step_line_of))]
    fn step_line(text: &[u8]) -> Option<Self>
        ensures { result ≡ step_line_of text.now }
    {
        if text == b"take".as_slice() {
            return Some(Line::Take);
        }
        if text == b"append".as_slice() {
            return Some(Line::Append);
        }
        if text == b"settle".as_slice() {
            return Some(Line::Settle);
        }
        if text == b"flush".as_slice() {
            return Some(Line::Flush);
        }
        None
    }

    // Parses a compaction or a part of one.
    #[tactic(auto, unfolding(crate::specs::Line::compact_line_of))]
    fn compact_line(text: &[u8]) -> Option<Self>
        ensures { result ≡ compact_line_of text.now }
    {
        if text == b"compact".as_slice() {
            return Some(Line::Compact(Compaction::Whole));
        }
        if text == b"compact start".as_slice() {
            return Some(Line::Compact(Compaction::Step(CompactStep::Start)));
        }
        if text == b"compact read".as_slice() {
            return Some(Line::Compact(Compaction::Step(CompactStep::Read)));
        }
        if text == b"compact write".as_slice() {
            return Some(Line::Compact(Compaction::Step(CompactStep::Write)));
        }
        if text == b"compact switch".as_slice() {
            return Some(Line::Compact(Compaction::Step(CompactStep::Switch)));
        }
        if text == b"compact abort".as_slice() {
            return Some(Line::Compact(Compaction::Abort));
        }
        None
    }

    // Parses a stop, a load, a reload or a close.
    #[tactic(auto, unfolding(crate::specs::Line::power_line_of))]
    fn power_line(text: &[u8]) -> Option<Self>
        ensures { result ≡ power_line_of text.now }
    {
        if text == b"stop keep".as_slice() {
            return Some(Line::Stop(Crash::Keep));
        }
        if text == b"stop lose".as_slice() {
            return Some(Line::Stop(Crash::Lose));
        }
        if text == b"load".as_slice() {
            return Some(Line::Load);
        }
        if text == b"reload".as_slice() {
            return Some(Line::Reload);
        }
        if text == b"close".as_slice() {
            return Some(Line::Close);
        }
        None
    }

    /// Parses the sector and the bytes of a poke.
    #[tactic(auto, unfolding(crate::specs::Line::poke_line_of))]
    pub fn poke_line(rest: &'a [u8]) -> Option<Self>
        ensures { result ≡ poke_line_of rest.now }
    {
        let (sector, bytes) = text::cut(rest, b' ')?;
        let sector = number(sector, NUMBER_MAX)?;
        let bytes = SectorText::read(bytes)?;
        Some(Line::Poke(sector, bytes))
    }

    /// Returns whether the line may come after a poke that waits for the next stop, reload or close.
    pub fn may_follow_poke(&self) -> bool
        ensures { result ≡ may_follow_poke self.now }
    {
        match self {
            Line::Skipped | Line::Poke(_, _) | Line::Stop(_) | Line::Reload | Line::Close => true,
            _ => false,
        }
    }

    // Parses a line by its first word: a moment, a closed session, a failure of the disk, a poke or a request.
    #[tactic(auto, unfolding(crate::specs::Line::word_line_of))]
    fn word_line(word: &[u8], rest: &'a [u8]) -> Option<Self>
        ensures { result ≡ word_line_of word.now rest.now }
    {
        if word == b"at".as_slice() {
            return Some(Line::At(moment_in(rest)?));
        }
        if word == b"tick".as_slice() {
            return Some(Line::Tick(moment_in(rest)?));
        }
        if word == b"gone".as_slice() {
            return Some(Line::Gone(text::session_number(rest)?));
        }
        if word == b"fuse".as_slice() {
            return Some(Line::Fuse(number(rest, NUMBER_MAX)?));
        }
        if word == b"once".as_slice() {
            return Some(Line::Once(number(rest, NUMBER_MAX)?));
        }
        if word == b"poke".as_slice() {
            return Line::poke_line(rest);
        }
        Some(Line::Ask(text::session_number(word)?, RequestLine::new(rest)))
    }
}

fn is_skipped(text: &[u8]) -> bool
    ensures { result ≡ is_skipped text.now }
{
    match text {
        [] => true,
        [first, ..] => *first == b'#',
    }
}

fn moment_in(text: &[u8]) -> Option<Moment>
    ensures { result ≡ number_of NUMBER_MAX text.now }
{
    let millis = number(text, NUMBER_MAX)?;
    Some(Moment::from_millis(millis))
}

/// Returns whether a request line is a JOIN without a member id, which draws a UUID.
#[tactic(auto, unfolding(crate::specs::Text::draws_uuid))]
pub fn draws_uuid(request: &[u8]) -> bool
    ensures { result ≡ draws_uuid request.now }
{
    match joiner(request) {
        Some(member) => member == b"-".as_slice(),
        None => false,
    }
}

// Returns the member word of a JOIN.
#[tactic(auto, unfolding(crate::specs::Text::joiner_of))]
fn joiner(request: &[u8]) -> Option<&[u8]>
    ensures { option_map (λ member. member.now) result ≡ joiner_of request.now }
{
    let call = text::behind(request, b"JOIN ")?;
    let (_, rest) = text::cut(call, b' ')?;
    let (member, _) = text::cut(rest, b' ')?;
    Some(member)
}
