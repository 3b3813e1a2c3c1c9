//! The form of a line of `candump -L`.

/// Whether digits of a stamp, without its brackets, are 1 to 12, a point and 6 to 9.
pub fn has_form(stamp: &str) -> bool {
    match stamp.split_once('.') {
        Some((seconds, fraction)) => is_digits(seconds, 1, 12) && is_digits(fraction, 6, 9),
        None => false,
    }
}

pub fn is_digits(text: &str, least: usize, most: usize) -> bool {
    least <= text.len() && text.len() <= most && text.bytes().all(|c| c.is_ascii_digit())
}

pub fn is_hex(text: &str) -> bool {
    text.bytes().all(|c| c.is_ascii_hexdigit())
}

/// What stands behind a stamp: the interface, and what comes behind the spaces behind it.
pub fn interface_and_frame(rest: &str) -> Option<(&str, &str)> {
    let (interface, frame) = rest.trim_start_matches(' ').split_once(' ')?;
    Some((interface, frame.trim_start_matches(' ')))
}

/// Whether a line may be the beginning of a good one, of which the rest was cut off.
pub fn is_beginning(line: &str) -> bool {
    let Some(text) = line.strip_prefix('(') else {
        return false;
    };
    match text.split_once(')') {
        Some((stamp, rest)) => has_form(stamp) && begins_rest(rest),
        None => begins_stamp(text),
    }
}

fn begins_stamp(text: &str) -> bool {
    match text.split_once('.') {
        Some((seconds, fraction)) => is_digits(seconds, 1, 12) && is_digits(fraction, 0, 9),
        None => is_digits(text, 0, 12),
    }
}

fn begins_rest(rest: &str) -> bool {
    let is_apart = rest.is_empty() || rest.starts_with(' ');
    match interface_and_frame(rest) {
        Some((_, frame)) => is_apart && begins_frame(frame),
        None => is_apart && !rest.contains('#'),
    }
}

fn begins_frame(frame: &str) -> bool {
    match frame.split_once('#') {
        Some((id, data)) => is_id(id) && begins_data(data),
        None => is_hex(frame) && frame.len() <= 8,
    }
}

fn is_id(id: &str) -> bool {
    is_hex(id) && (id.len() == 8 || matches!(id.as_bytes(), [b'0'..=b'7', _, _]))
}

/// Whether a frame's bytes begin so: of CAN FD behind another `#` and a digit of flags, and of a classic frame of 8 bytes with
/// `_` and a digit behind them.
fn begins_data(data: &str) -> bool {
    if let Some(flexible) = data.strip_prefix('#') {
        return is_hex(flexible) && flexible.len() <= 129;
    }
    match data.split_once('_') {
        Some((digits, behind)) => is_hex(digits) && digits.len() == 16 && behind.is_empty(),
        None => is_hex(data) && data.len() <= 16,
    }
}
