//! A line of a recording, and whose interface it is.

ghost use Rattle.std.specs.Prelude.{◌≡◌, ◌+◌, ◌≤◌, ◌++◌, ◌∷◌, ◌<◌, [], length, take};
ghost use Rattle.std.specs.List.{after_first, before_first};
ghost use Rattle.diag_interface.specs.Interface.{interface_of, is_close, is_other, is_stamped, only_line, time_alone};
ghost use Rattle.diag_interface.specs.Only.{turned};
ghost use Rattle.diag_interface.specs.Window.{items, room, size};
ghost use Rattle.diag_can.specs.BusLine.{bus_line};

use crate::window::Window;
use diag_can::{BusLine, read_bus_line, space_run, word_run};
use memchr::memchr;

/// What stands behind the first closing bracket, in place of what was there.
const TIME_ALONE: &[u8] = b") other 000#R";

/// The most bytes by which a line grows.
pub const GROWTH: usize = TIME_ALONE.len();

/// What stands before the first closing bracket.
fn before_close(line: &[u8]) -> &[u8]
    ensures { result.now ≡ before_first is_close line.now }
{
    match memchr(b')', line) {
        Some(end) => &line[..end],
        None => line,
    }
}

/// What stands behind the first closing bracket.
fn behind_close(line: &[u8]) -> &[u8]
    ensures { result.now ≡ after_first is_close line.now }
{
    match memchr(b')', line) {
        Some(end) => &line[end + 1..],
        None => &[],
    }
}

/// The interface's name in a line.
fn interface_of(line: &[u8]) -> &[u8]
    ensures { result.now ≡ interface_of line.now }
{
    let rest = behind_close(line);
    let named = rest.split_at(space_run(rest)).1;
    named.split_at(word_run(named)).0
}

/// Whether a line says something, and has a stamp.
fn is_stamped(line: &[u8]) -> bool
    ensures { result ≡ is_stamped (bus_line [] line.now) }
{
    matches!(read_bus_line(&[], line), Ok(BusLine::Stamped { .. }))
}

/// Whether a line tells the time by a frame of another interface than that of this name.
fn is_other(name: &[u8], line: &[u8]) -> bool
    ensures { result ≡ is_other name.now line.now }
{
    interface_of(line) != name && is_stamped(line)
}

/// Adds the line that tells a line's time alone.
fn add_time(line: &[u8], ready: &mut Window)
    requires { length line.now + 13 ≤ room ready.old }
    ensures items { items ready.new ≡ items ready.old ++ time_alone line.now }
    ensures room { room ready.old ≤ room ready.new + (length line.now + 13) }
    ensures size { size ready.new ≡ size ready.old }
{
    ready.add(before_close(line));
    ready.add(TIME_ALONE);
}

/// Adds a line, or in place of one of another interface that which tells its time alone.
fn add_only(name: &[u8], line: &[u8], ready: &mut Window)
    requires { length line.now + 13 ≤ room ready.old }
    ensures items { items ready.new ≡ items ready.old ++ only_line name.now line.now }
    ensures room { room ready.old ≤ room ready.new + (length line.now + 13) }
    ensures size { size ready.new ≡ size ready.old }
{
    if is_other(name, line) {
        add_time(line, ready);
    } else {
        ready.add(line);
    }
}

/// Adds what is begun of a line, as it is where it is the rest of a long one.
pub fn add_begun(name: &[u8], is_long: bool, line: &[u8], ready: &mut Window)
    requires { length line.now + 13 ≤ room ready.old }
    ensures items { items ready.new ≡ items ready.old ++ turned name.now is_long line.now }
    ensures room { room ready.old ≤ room ready.new + (length line.now + 13) }
    ensures size { size ready.new ≡ size ready.old }
{
    if is_long {
        ready.add(line);
    } else {
        add_only(name, line, ready);
    }
}

/// Adds the line of a text whose LF stands at this place, and the LF.
pub fn add_line(name: &[u8], is_long: bool, text: &[u8], end: usize, ready: &mut Window)
    requires end { end < length text.now }
    requires room { end + 14 ≤ room ready.old }
    ensures items { items ready.new ≡ items ready.old ++ (turned name.now is_long (take end text.now) ++ 10 ∷ []) }
    ensures size { size ready.new ≡ size ready.old }
{
    add_begun(name, is_long, &text[..end], ready);
    ready.add(b"\n");
}
