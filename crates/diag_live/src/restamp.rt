//! A line as it stands in the capture of a live run.

ghost use Rattle.std.specs.Prelude.{◌≡◌, ◌++◌, length, IfOk, OnOk};
ghost use Rattle.std.specs.List.{after_first};
ghost use Rattle.diag_live.specs.Live.{capture_of, is_close, passed, record_text, restamped, tick_line, with_feed};

use diag_can::TickCount;
use memchr::memchr;
use std::alloc::AllocError;

/// The stamp of each line of the capture.
const NULL_STAMP: &[u8] = b"(0.000000)";

/// The most ticks of a line.
const MOST_TICKS: u64 = TickCount::MAX as u64;

/// Adds a line to a capture, with the null stamp in place of its own, and an LF.
pub(crate) fn add_restamped(text: &mut Vec<u8>, line: &[u8]) -> Result<(), AllocError>
    ensures { OnOk result (text.new.items ≡ text.old.items ++ with_feed (restamped line.now)) }
{
    if line.starts_with(b"(") {
        text.extend_from_slice(NULL_STAMP)?;
        text.extend_from_slice(behind_stamp(line))?;
    } else {
        text.extend_from_slice(line)?;
    }
    text.extend_from_slice(b"\n")
}

/// What stands behind the first closing bracket.
fn behind_stamp(line: &[u8]) -> &[u8]
    ensures { result.now ≡ after_first is_close line.now }
{
    match memchr(b')', line) {
        Some(end) => &line[end + 1..],
        None => &[],
    }
}

/// Adds a line of so many ticks to a capture.
fn add_tick(text: &mut Vec<u8>, count: u64) -> Result<(), AllocError>
    ensures { OnOk result (text.new.items ≡ text.old.items ++ with_feed (tick_line count)) }
{
    let line = format!(in *text.allocator(); "tick {count}\n")?;
    text.extend_from_slice(line.as_bytes())
}

/// Adds so many milliseconds to a capture, in lines of at most 60000 ticks; answers how many lines that are.
pub(crate) fn add_time(text: &mut Vec<u8>, span: u64) -> Result<u64, AllocError>
    ensures text { OnOk result
        (text.new.items ≡ text.old.items ++ record_text (capture_of (passed span))) }
    ensures lines { IfOk result (λ count. count ≡ length (passed span)) }
{
    let most = span / MOST_TICKS;
    for _ in 0..most {
        add_tick(text, MOST_TICKS)?;
    }
    let rest = span % MOST_TICKS;
    if rest == 0 {
        return Ok(most);
    }
    add_tick(text, rest)?;
    Ok(most + 1)
}
