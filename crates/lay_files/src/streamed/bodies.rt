//! The layout of files and of the bodies of modules, window by window.
ghost use Rattle.std.specs.Prelude.{◌≡◌, IfOk, IsUtf8, OnOk};
ghost use Rattle.std.specs.Str.{IsCharBoundary};
ghost use Rattle.lay_files.specs.windows.Windows.{IsWindow};
ghost use Rattle.lay_files.specs.streamed.Through.{PutsBody, PutsFile, PutsModule, is_empty_body};

use crate::streamed::modules::{close, open, put_empty};
use crate::streamed::parts::put_parts;
use crate::streamed::stop::{NotPut, told, unread};
use crate::windows::heads::Head;
use crate::windows::window::{Window, read_window};
use lay_lex::{Source, Stop};
use lay_stream::Emit;
use std::alloc::Global;

/// Emits the layout of the file that the tokens of the text spell, without its shebang line, if the
/// file can be read window by window.
///
/// The items of the file fit in `depth` levels, and items within an item in one fewer.
pub fn put_source<E: Emit>(
    alloc: Global,
    source: &Source,
    depth: u32,
    out: &mut E,
) -> Result<(), NotPut<E::Fault>>
    requires text { IsUtf8 source.now.text }
    requires border { IsCharBoundary source.now.text source.now.start }
    ensures { OnOk result (PutsFile E.meanings depth source.now.text source.now.start out.old
        out.new) }
{
    let text = source.as_str();
    let mut place = source.start;
    let first = window_at(alloc, text, place)?;
    match put_body(alloc, text, &mut place, first, false, depth, out) {
        Ok(false) => Ok(()),
        Ok(true) => Err(NotPut::NoReading),
        Err(error) => Err(error),
    }
}

/// Emits inner attributes and items from a byte offset on, where the first window begins, to the
/// end of the text, or past the closing brace of the module that they are in. Says whether they end
/// in that brace. Inside a module each has a newline before it, else after it.
#[cycle(body)]
#[inline(never)]
fn put_body<E: Emit>(
    alloc: Global,
    text: &str,
    place: &mut usize,
    first: Window,
    within: bool,
    depth: u32,
    out: &mut E,
) -> Result<bool, NotPut<E::Fault>>
    requires text { IsUtf8 text.now }
    requires border { IsCharBoundary text.now place.old }
    requires first { IsWindow text.now place.old first.nested first.end first.stop }
    ensures { IfOk result (λ closed. PutsBody E.meanings within depth text.now place.old place.new first.nested first.stop closed out.old out.new) }
{
    let mut window = first;
    let mut are_items = false;
    for _ in 0..usize::MAX {
        let head = put_parts(alloc, &window.nested, within, &mut are_items, depth, out)?;
        *place = window.end;
        match (window.stop, head) {
            (Stop::More, None) => window = window_at(alloc, text, *place)?,
            (Stop::Opened, Some(head)) if depth > 0 => {
                put_module(alloc, text, place, within, depth - 1, &head, out)?;
                are_items = true;
                window = window_at(alloc, text, *place)?;
            }
            (Stop::End, None) => return Ok(false),
            (Stop::Closed, None) => return Ok(true),
            _ => return Err(NotPut::NoReading),
        }
    }
    Err(NotPut::NoReading)
}

/// Emits the module with this head. Its body begins at the byte offset `place`, which is moved past
/// the closing brace.
#[cycle(body)]
fn put_module<E: Emit>(
    alloc: Global,
    text: &str,
    place: &mut usize,
    within: bool,
    depth: u32,
    head: &Head,
    out: &mut E,
) -> Result<(), NotPut<E::Fault>>
    requires text { IsUtf8 text.now }
    requires border { IsCharBoundary text.now place.old }
    ensures { OnOk result (PutsModule E.meanings within depth text.now place.old place.new head.now
        out.old out.new) }
{
    let first = window_at(alloc, text, *place)?;
    if is_empty_body(&first) {
        *place = first.end;
        return told(put_empty(out, within, head));
    }
    told(open(out, within, head))?;
    match put_body(alloc, text, place, first, true, depth, out) {
        Ok(true) => told(close(out, within)),
        Ok(false) => Err(NotPut::NoReading),
        Err(error) => Err(error),
    }
}

/// The window that begins at a byte offset.
fn window_at<F>(alloc: Global, text: &str, place: usize) -> Result<Window, NotPut<F>>
    requires text { IsUtf8 text.now }
    requires border { IsCharBoundary text.now place }
    ensures { IfOk result (λ window. IsWindow text.now place window.nested window.end window.stop) }
{
    match read_window(alloc, text, place) {
        Ok(window) => Ok(window),
        Err(none) => Err(unread(none)),
    }
}

/// Whether the window is only the closing brace of a module, so the module is empty.
fn is_empty_body(window: &Window) -> bool
    ensures { result ≡ is_empty_body window.now.nested window.now.stop }
{
    match window.stop {
        Stop::Closed => window.nested.cursor().is_end(),
        Stop::End | Stop::More | Stop::Opened => false,
    }
}
