//! The stamp and the name in front of a frame in candump's log format: `(SECONDS.FRACTION) NAME `.

ghost use Rattle.std.specs.Prelude.{◌≡◌, ◌<◌, ◌≤◌, ◌-◌, ◌^◌, length, min, take, option_map, option_copied, IfSome};
ghost use Rattle.std.specs.List.{AllPass, prefix_len};
ghost use Rattle.diag_can.specs.Stamp.{is_digit, decimal_value, is_space, is_no_space, behind, behind_run, digits_of, numbered, stamp_of, behind_name};

/// Whether this is a decimal digit.
pub fn is_digit(c: u8) -> bool
    ensures { result ≡ is_digit c }
{
    c.is_ascii_digit()
}

/// The number that the digits write, or the greatest `u64` where it is greater.
pub fn decimal_value(digits: &[u8]) -> u64
    ensures { result ≡ min (decimal_value digits.now) (2 ^ 64 - 1) }
{
    let mut value: u64 = 0;
    for c in digits {
        value = value
            .saturating_mul(10)
            .saturating_add(u64::from(c.saturating_sub(b'0')));
    }
    value
}

/// What stands behind this byte, where the text begins with it.
pub fn behind(byte: u8, text: &[u8]) -> Option<&[u8]>
    ensures { option_copied result ≡ behind byte text.now }
{
    match text.split_first() {
        Some((first, rest)) if *first == byte => Some(rest),
        _ => None,
    }
}

/// How many spaces stand at the front.
#[inline]
pub fn space_run(text: &[u8]) -> usize
    ensures count { result ≡ prefix_len is_space text.now }
    ensures fits { result ≤ length text.now }
{
    text.iter().take_while(|c| **c == b' ').count()
}

/// How many bytes other than space stand at the front.
#[inline]
pub fn word_run(text: &[u8]) -> usize
    ensures count { result ≡ prefix_len is_no_space text.now }
    ensures fits { result ≤ length text.now }
{
    text.iter().take_while(|c| **c != b' ').count()
}

/// How many digits stand at the front.
fn digit_run(text: &[u8]) -> usize
    ensures count { result ≡ prefix_len is_digit text.now }
    ensures fits { result ≤ length text.now }
{
    text.iter().take_while(|c| is_digit(**c)).count()
}

/// What stands behind one space or more.
fn behind_spaces(text: &[u8]) -> Option<&[u8]>
    ensures { option_copied result ≡ behind_run is_space text.now }
{
    let count = space_run(text);
    if count == 0 {
        return None;
    }
    Some(text.split_at(count).1)
}

/// What stands behind one byte or more other than space.
fn behind_word(text: &[u8]) -> Option<&[u8]>
    ensures { option_copied result ≡ behind_run is_no_space text.now }
{
    let count = word_run(text);
    if count == 0 {
        return None;
    }
    Some(text.split_at(count).1)
}

/// The digits at the front and what stands behind them, where they are so many.
fn digits_of(least: usize, most: usize, text: &[u8]) -> Option<(&[u8], &[u8])>
    ensures value { option_map (λ r. (r.0.now, r.1.now)) result ≡ digits_of least most text.now }
    ensures digits { IfSome result (λ r. AllPass is_digit r.0.now) }
    ensures few { IfSome result (λ r. length r.0.now ≤ most) }
{
    let count = digit_run(text);
    if least <= count && count <= most {
        Some(text.split_at(count))
    } else {
        None
    }
}

/// How many digits stand at the front, and the number that they write where they are at most 12.
pub fn number_run(text: &[u8]) -> (usize, u64)
    ensures count { result.0 ≡ prefix_len is_digit text.now }
    ensures fits { result.0 ≤ length text.now }
    ensures value { result.0 ≤ 12 → result.1 ≡ decimal_value (take result.0 text.now) }
{
    let mut value: u64 = 0;
    for (count, c) in text.iter().enumerate() {
        if !is_digit(*c) {
            return (count, value);
        }
        value = value.wrapping_mul(10).wrapping_add(u64::from(*c - b'0'));
    }
    (text.len(), value)
}

/// The number that 1 to 12 digits at the front write, where no more stand there, and what stands behind them.
fn seconds_of(text: &[u8]) -> Option<(u64, &[u8])>
    ensures value { option_map (λ r. (r.0, r.1.now)) result
        ≡ option_map numbered (digits_of 1 12 text.now) }
    ensures few { IfSome result (λ r. r.0 < 10 ^ 12) }
{
    let (count, value) = number_run(text);
    if 1 <= count && count <= 12 {
        Some((value, text.split_at(count).1))
    } else {
        None
    }
}

/// The number that three digits at the front write.
pub fn thousandths(fraction: &[u8]) -> u64
    requires digits { AllPass is_digit fraction.now }
    requires enough { 6 ≤ length fraction.now }
    ensures value { result ≡ decimal_value (take 3 fraction.now) }
    ensures few { result < 1000 }
{
    u64::from(fraction[0] - b'0') * 100
        + u64::from(fraction[1] - b'0') * 10
        + u64::from(fraction[2] - b'0')
}

/// The moment of the stamp at the front, and what stands behind the stamp.
pub fn stamp_of(text: &[u8]) -> Option<(u64, &[u8])>
    ensures { option_map (λ r. (r.0, r.1.now)) result ≡ stamp_of text.now }
{
    let (seconds, text) = seconds_of(behind(b'(', text)?)?;
    let (fraction, text) = digits_of(6, 9, behind(b'.', text)?)?;
    let text = behind(b')', text)?;
    Some((seconds * 1000 + thousandths(fraction), text))
}

/// What stands behind spaces, an interface's name and spaces.
pub fn behind_name(text: &[u8]) -> Option<&[u8]>
    ensures { option_copied result ≡ behind_name text.now }
{
    behind_spaces(behind_word(behind_spaces(text)?)?)
}
