//! The slow printer, which measures each group and each break anew.
ghost use Rattle.std.specs.Prelude.{◌≡◌, ◌≤◌, ◌+◌, nat_lt, OnOk, IfOk};
ghost use Rattle.lay_layout.specs.Machine.{opened, reach, Layout, step, text};
ghost use Rattle.lay_layout.specs.Document.{Document, break_in, stream as stream_of, text_of, write as written_on};
ghost use Rattle.lay_layout.specs.Indents.{IsKept};
ghost use Rattle.lay_stream.specs.Pages.{Follows, IsLaid};

use crate::frames::{Frames, asks_at_begin};
use crate::line::Line;
use crate::stream::Stream;
use crate::text_sink::TextSink;
use lay_io::Failed;
use lay_layout::{Break, Frame, MARGIN, Tok, asks_at_break, entered, width_of};
use lay_text::{NoMemory, Text};
use std::alloc::Global;

/// The text of a stream in which no group is open: that of the document of which the stream is the
/// flattening.
pub fn plain(alloc: Global, stream: &Stream) -> Result<Text, NoMemory>
    requires { opened stream.now 0 ≡ 0 }
    ensures value { IfOk result (λ t. t ≡ text stream.now) }
    ensures document { IfOk result (λ t. (d : Document) → stream_of d ≡ stream.now
        → t ≡ text_of d) }
{
    lay(alloc, stream.toks())
}

/// The text of a list of tokens.
fn lay(alloc: Global, toks: &[Tok]) -> Result<Text, NoMemory>
    ensures { IfOk result (λ t. t ≡ text toks.now) }
{
    let mut line = Line {
        pending: 0,
        room: MARGIN,
        used: 0,
    };
    let mut sink = TextSink::new(alloc);
    let mut frames = Frames::new(alloc);
    let mut rest = toks;
    while let Some((tok, more)) = rest.split_first() {
        lay_one(&mut line, &mut sink, &mut frames, tok, more)?;
        rest = more;
    }
    let TextSink { text, faults: _ } = sink;
    Ok(text)
}

/// Puts a token on the line; `more` are the tokens that follow.
fn lay_one(
    line: &mut Line,
    sink: &mut TextSink,
    frames: &mut Frames,
    tok: &Tok,
    more: &[Tok],
) -> Result<(), NoMemory>
    ensures { OnOk result ((m : Layout) → IsLaid line.old frames.old sink.old.text m
        → IsLaid line.new frames.new sink.new.text (step tok.now more.now m)) }
{
    match tok {
        Tok::Text(text) => put_text(line, sink, text.as_bytes()),
        Tok::Break(brk) => {
            let frame = frames.top();
            let big = asks_at_break(frame, *brk) && is_over(line, width_of(*brk), more, 0);
            put_break(line, sink, frame, *brk, big)
        }
        Tok::Begin { consistent, offset } => {
            let frame = frames.top();
            let big = asks_at_begin(frame) && is_over(line, 0, more, 1);
            frames.push(entered(frame, *consistent, *offset, big))
        }
        Tok::End => {
            frames.pop();
            Ok(())
        }
    }
}

/// Puts a text on the line.
fn put_text(line: &mut Line, sink: &mut TextSink, text: &[u8]) -> Result<(), NoMemory>
    ensures { OnOk result (Follows line.old sink.old.text line.new sink.new.text
        (written_on text.now)) }
{
    match line.write(sink, text) {
        Ok(()) => Ok(()),
        Err(Failed) => Err(NoMemory),
    }
}

/// Puts a break on the line; `big` says that its width up to the next break is greater than the
/// space that is left.
fn put_break(
    line: &mut Line,
    sink: &mut TextSink,
    frame: Frame,
    brk: Break,
    big: bool,
) -> Result<(), NoMemory>
    requires { IsKept frame }
    ensures { OnOk result (Follows line.old sink.old.text line.new sink.new.text
        (break_in frame brk big)) }
{
    match line.put_break(sink, frame, brk, big) {
        Ok(()) => Ok(()),
        Err(Failed) => Err(NoMemory),
    }
}

/// Whether a measured width is greater than the space that is left: `width`, plus what the tokens
/// `more` need up to a break at depth 0.
fn is_over(line: &Line, width: u64, more: &[Tok], depth: usize) -> bool
    requires { depth ≤ 1 }
    ensures { result ≡ nat_lt line.now.room (line.now.used + (width + reach depth more.now)) }
{
    if line.used > line.room {
        return true;
    }
    let limit = line.room - line.used;
    if width > limit {
        return true;
    }
    reaches_past(more, depth, limit - width)
}

/// Whether the tokens need more than `limit` columns up to a break at depth 0. It looks no further
/// than the limit.
fn reaches_past(toks: &[Tok], depth: usize, limit: u64) -> bool
    requires { depth ≤ 1 }
    ensures { result ≡ nat_lt limit (reach depth toks.now) }
{
    let mut rest = toks;
    let mut depth = depth;
    let mut left = limit;
    while let Some((tok, more)) = rest.split_first() {
        let mut width = 0;
        match tok {
            Tok::Text(text) => width = text.as_bytes().len() as u64,
            Tok::Break(brk) => {
                if depth == 0 {
                    return false;
                }
                width = width_of(*brk);
            }
            Tok::Begin { .. } => depth += 1,
            Tok::End => depth = depth.saturating_sub(1),
        }
        if width > left {
            return true;
        }
        left -= width;
        rest = more;
    }
    false
}
