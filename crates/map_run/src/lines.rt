//! The lines of a session, from bytes to replies.
ghost use Rattle.std.specs.Prelude.{◌≡◌, ◌≤◌, ◌<◌, ◌+◌, ◌^◌, ◌++◌, ◌∷◌, [], List, ℕ, length, take, true, false, Ok, IfOk, MatchOption, position, ◌==◌, if◌then◌else◌};
ghost use Rattle.map_machine.specs.States.{MapState};
ghost use Rattle.map_machine.specs.Steps.{is_quit, long_reply};
ghost use Rattle.map_machine.specs.Text.{reply_to, state_to};
ghost use Rattle.map_machine.specs.LineReads.{line_reads};
ghost use Rattle.map_machine.specs.Lines.{open_piece, without_return, has_line_feed, further_lines, last_line};
ghost use Rattle.map_outside.specs.Causes.{PutCounts};
ghost use Rattle.map_outside.specs.Contents.{PutGrows};
ghost use Rattle.layer_tiles.specs.Tallies.{TallyState, KeepsParts, IsUndivided};
ghost use Rattle.map_run.specs.Progress.{Rises};
ghost use Rattle.map_run.specs.Answered.{Answered};
ghost use Rattle.map_run.specs.Kept.{IsKept};
ghost use Rattle.map_run.specs.Shown.{progress};

use crate::piece::{LONGEST, Piece, ends_with_return};
use crate::setup::Setup;
use crate::stop::Stop;
use itoa::Buffer;
use layer_tiles::Tally;
use map_machine::Kind;
use map_nums::NoMemory;
use map_outside::{PutFault, Sink};
use map_session::Session;
use std::alloc::Global;
use std::thread::Threads;
use tile_workers::Gate;

/// Whether the session goes on after some lines were answered.
#[derive(Clone, Copy, Debug, PartialEq, Eq)]
pub enum Fed {
    /// None of them ends it.
    More,
    /// One of them ends it.
    Quit,
}

/// Puts a reply, unless it is empty.
pub fn put_reply<K: Sink>(sink: &mut K, reply: &[u8]) -> Result<(), PutFault>
    ensures bytes { PutGrows (K.held sink.old) (K.held sink.new) result reply.now }
    ensures cause { PutCounts (K.faults sink.old) (K.faults sink.new) result }
{
    if reply.is_empty() {
        return Ok(());
    }
    sink.put(reply)
}

// Puts the reply to a line.
fn put_answer<K: Sink>(sink: &mut K, reply: &[u8]) -> Result<Fed, Stop>
    ensures { (state : MapState) (line : List ℕ) (before after : TallyState) → is_quit line ≡ false → reply.now ≡ reply_to state line → Rises (line_reads state line) before after
        → Answered state (state_to state line) (line ∷ [])
        (progress K.held K.faults sink.old before) (progress K.held K.faults sink.new after) result }
{
    match put_reply(sink, reply) {
        Ok(()) => Ok(Fed::More),
        Err(PutFault::Failed) => Err(Stop::SinkFault),
        Err(PutFault::NoMemory) => Err(Stop::NoMemory),
    }
}

/// Answers a line of any length.
pub fn answer_line<K: Sink, M: Tally + Send, G: Gate + Sync, R: Threads + Sync>(
    setup: &Setup<'_, G, R>,
    session: &mut Session,
    sink: &mut K,
    tally: &mut M,
    line: &[u8],
) -> Result<Fed, Stop>
    requires whole { IsUndivided (M.counts tally.old) }
    ensures parts { KeepsParts (M.counts tally.old) (M.counts tally.new) }
    ensures answered { Answered session.old session.new (line.now ∷ [])
        (progress K.held K.faults sink.old (M.counts tally.old)) (progress K.held K.faults sink.new (M.counts tally.new)) result }
{
    let reply = session.step(
        setup.crew.rt,
        setup.crew.alloc,
        line,
        setup.crew.workers(),
        setup.crew.gate,
        tally,
    )?;
    match reply.kind {
        Kind::Quit => Ok(Fed::Quit),
        _ => put_answer(sink, &reply.bytes),
    }
}

#[tactic(auto, unfolding(map_machine::specs::Steps::long_reply))]
fn long_text(alloc: Global, count: u64) -> Result<Vec<u8>, NoMemory>
    ensures { IfOk result (λ text. text.items ≡ long_reply count) }
{
    let mut text = Vec::from_slice(alloc, b"refused long ")?;
    text.extend_from_slice(Buffer::new().format(count).as_bytes())?;
    text.push(b'\n')?;
    Ok(text)
}

// Refuses a line that is too long.
fn answer_long<K: Sink>(alloc: Global, sink: &mut K, count: u64) -> Result<Fed, Stop>
    requires { 4096 < count }
    ensures { (state : MapState) (line : List ℕ) (tally : TallyState) → length line ≡ count
        → Answered state state (line ∷ [])
        (progress K.held K.faults sink.old tally) (progress K.held K.faults sink.new tally) result }
{
    let text = long_text(alloc, count)?;
    put_answer(sink, &text)
}

// Answers the line of this length that begins with these bytes, or with fewer where it is too long.
fn answer<K: Sink, M: Tally + Send, G: Gate + Sync, R: Threads + Sync>(
    setup: &Setup<'_, G, R>,
    session: &mut Session,
    sink: &mut K,
    tally: &mut M,
    bytes: &[u8],
    count: u64,
) -> Result<Fed, Stop>
    requires bytes { count ≤ 4096 → count ≤ length bytes.now }
    requires whole { IsUndivided (M.counts tally.old) }
    ensures parts { KeepsParts (M.counts tally.old) (M.counts tally.new) }
    ensures answered { (line : List ℕ) → length line ≡ count → (count ≤ 4096 → line ≡ take count bytes.now)
        → Answered session.old session.new (line ∷ [])
        (progress K.held K.faults sink.old (M.counts tally.old)) (progress K.held K.faults sink.new (M.counts tally.new)) result }
{
    if count > LONGEST {
        return answer_long(setup.crew.alloc, sink, count);
    }
    answer_line(setup, session, sink, tally, &bytes[..count as usize])
}

// The length of a line, of its piece with a carriage return or without.
fn line_length(count: u64, returns: bool) -> u64
    requires { returns ≡ true → 0 < count }
    ensures { count ≡ result + (if returns then 1 else 0) }
{
    if returns { count - 1 } else { count }
}

// Answers the line that these bytes go on with and a line feed ends, and begins the next piece.
fn end_line<K: Sink, M: Tally + Send, G: Gate + Sync, R: Threads + Sync>(
    setup: &Setup<'_, G, R>,
    session: &mut Session,
    sink: &mut K,
    tally: &mut M,
    piece: &mut Piece,
    bytes: &[u8],
) -> Result<Fed, Stop>
    requires count { piece.old.count + length bytes.now < 2 ^ 64 }
    requires whole { IsUndivided (M.counts tally.old) }
    ensures count { piece.new.count ≤ piece.old.count + length bytes.now }
    ensures parts { KeepsParts (M.counts tally.old) (M.counts tally.new) }
    ensures kept { result ≡ Ok Fed.More → IsKept [] piece.new.kept.items piece.new.count piece.new.returns }
    ensures answered { (front : List ℕ) → IsKept front piece.old.kept.items piece.old.count piece.old.returns
        → Answered session.old session.new (without_return (front ++ bytes.now) ∷ [])
        (progress K.held K.faults sink.old (M.counts tally.old)) (progress K.held K.faults sink.new (M.counts tally.new)) result }
{
    if piece.count == 0 {
        let count = line_length(bytes.len() as u64, ends_with_return(bytes));
        return answer(setup, session, sink, tally, bytes, count);
    }
    piece.extend(bytes)?;
    let count = line_length(piece.count, piece.returns);
    let fed = answer(setup, session, sink, tally, &piece.kept, count);
    piece.clear();
    fed
}

// Where the first line feed stands.
fn line_feed_in(bytes: &[u8]) -> Option<usize>
    ensures { result ≡ position (λ b. b == 10) bytes.now }
{
    bytes.iter().position(|byte| *byte == b'\n')
}

/// What stands before the first line feed, and what after it.
pub fn cut_line(bytes: &[u8]) -> Option<(&[u8], &[u8])>
    ensures { MatchOption result (has_line_feed bytes.now ≡ false)
        (λ cut. (bytes.now ≡ (cut.0.now ++ 10 ∷ []) ++ cut.1.now) × (has_line_feed cut.0.now ≡ false)) }
{
    match line_feed_in(bytes) {
        Some(at) => Some((&bytes[..at], &bytes[at + 1..])),
        None => None,
    }
}

/// Takes in some bytes, and answers the lines that they end.
pub fn feed<K: Sink, M: Tally + Send, G: Gate + Sync, R: Threads + Sync>(
    setup: &Setup<'_, G, R>,
    session: &mut Session,
    sink: &mut K,
    tally: &mut M,
    piece: &mut Piece,
    bytes: &[u8],
) -> Result<Fed, Stop>
    requires count { piece.old.count + length bytes.now < 2 ^ 64 }
    requires whole { IsUndivided (M.counts tally.old) }
    ensures count { piece.new.count ≤ piece.old.count + length bytes.now }
    ensures parts { KeepsParts (M.counts tally.old) (M.counts tally.new) }
    ensures answered { (taken : List ℕ) → IsKept (open_piece taken) piece.old.kept.items piece.old.count piece.old.returns
        → Answered session.old session.new (further_lines taken bytes.now)
        (progress K.held K.faults sink.old (M.counts tally.old)) (progress K.held K.faults sink.new (M.counts tally.new)) result }
    ensures kept { result ≡ Ok Fed.More → (taken : List ℕ) → IsKept (open_piece taken) piece.old.kept.items piece.old.count piece.old.returns
        → IsKept (open_piece (taken ++ bytes.now)) piece.new.kept.items piece.new.count piece.new.returns }
{
    let mut rest = bytes;
    while let Some((line, further)) = cut_line(rest) {
        match end_line(setup, session, sink, tally, piece, line)? {
            Fed::More => rest = further,
            Fed::Quit => return Ok(Fed::Quit),
        }
    }
    piece.extend(rest)?;
    Ok(Fed::More)
}

/// Answers what stands after the last line feed, once the end was seen.
pub fn finish<K: Sink, M: Tally + Send, G: Gate + Sync, R: Threads + Sync>(
    setup: &Setup<'_, G, R>,
    session: &mut Session,
    sink: &mut K,
    tally: &mut M,
    piece: &Piece,
) -> Result<Fed, Stop>
    requires whole { IsUndivided (M.counts tally.old) }
    ensures parts { KeepsParts (M.counts tally.old) (M.counts tally.new) }
    ensures answered { (bytes : List ℕ) → IsKept bytes piece.now.kept.items piece.now.count piece.now.returns
        → Answered session.old session.new (last_line bytes)
        (progress K.held K.faults sink.old (M.counts tally.old)) (progress K.held K.faults sink.new (M.counts tally.new)) result }
{
    if piece.count == 0 {
        return Ok(Fed::More);
    }
    answer(setup, session, sink, tally, &piece.kept, piece.count)
}
