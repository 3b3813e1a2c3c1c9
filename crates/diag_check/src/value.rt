//! What a value may be by its kind alone.

use crate::finding::digits_of;
use crate::keys::{Kind, MOST_CODE};
use toml::Value;

/// The number that a value says: a whole one from 0 to 4294967295.
pub fn number(value: &Value) -> Option<u32> {
    match value {
        Value::Integer(n) => u32::try_from(*n).ok(),
        _ => None,
    }
}

fn text(value: &Value) -> &[u8] {
    match value {
        Value::String(text) => text.as_bytes(),
        _ => b"",
    }
}

fn is_hex(text: &[u8]) -> bool {
    text.len() % 2 == 0 && text.iter().all(|c| c.is_ascii_hexdigit())
}

/// Whether two characters are an item of a pattern.
fn is_pattern_item(pair: &[u8]) -> bool {
    match pair {
        [b'.', b'.'] => true,
        [first, second] => first.is_ascii_hexdigit() && second.is_ascii_hexdigit(),
        _ => false,
    }
}

/// Whether two characters are an item of a template.
fn is_template_item(pair: &[u8]) -> bool {
    match pair {
        [b'?', b'?'] => true,
        [b'$', index] => index.is_ascii_hexdigit(),
        [first, second] => first.is_ascii_hexdigit() && second.is_ascii_hexdigit(),
        _ => false,
    }
}

/// The items of a pattern's text, of two characters each, and whether more bytes may come behind them, where it is one.
pub fn pattern_parts(value: &Value) -> Option<(&[u8], bool)> {
    let text = text(value);
    let (items, more) = match text {
        [items @ .., b'*'] if text.len() % 2 == 1 => (items, true),
        _ => (text, false),
    };
    let is_pattern = !items.is_empty() && items.chunks(2).all(is_pattern_item);
    is_pattern.then_some((items, more))
}

/// Whether a text is a pattern but for single spaces between its items, and `0x` before them.
pub fn is_spaced_pattern(text: &str) -> bool {
    let items = text.strip_suffix('*').unwrap_or(text);
    let items = items.strip_suffix(' ').unwrap_or(items);
    items.split(' ').all(is_spaced_part)
}

/// Whether a text is items of a pattern, with or without `0x` before them.
fn is_spaced_part(part: &str) -> bool {
    let items = digits_of(part);
    !items.is_empty() && items.as_bytes().chunks(2).all(is_pattern_item)
}

/// How many items a pattern's text has, where it is one.
pub fn pattern_items(value: &Value) -> Option<usize> {
    let (items, _) = pattern_parts(value)?;
    Some(items.len() / 2)
}

/// Whether a value is a pattern.
pub fn is_pattern(value: &Value) -> bool {
    pattern_items(value).is_some()
}

/// Whether a value is a template.
pub fn is_template(value: &Value) -> bool {
    value.is_str() && is_template_text(text(value))
}

/// Whether a text is a template.
pub fn is_template_text(text: &[u8]) -> bool {
    text.chunks(2).all(is_template_item)
}

/// The greatest index of a request's byte that a template names.
pub fn greatest_index(template: &Value) -> Option<u32> {
    let mut greatest = None;
    for pair in text(template).chunks(2) {
        if let [b'$', index] = pair {
            greatest = greatest.max(char::from(*index).to_digit(16));
        }
    }
    greatest
}

/// The items of a list.
pub fn items(value: &Value) -> &[Value] {
    match value {
        Value::Array(items) => items.as_slice(),
        _ => &[],
    }
}

/// Whether a value is of a kind, whatever its range.
pub fn is_of_kind(kind: Kind, value: &Value) -> bool {
    match kind {
        Kind::Number(..)
        | Kind::Byte
        | Kind::Identifier(_)
        | Kind::Separation
        | Kind::DataLength
        | Kind::SubFunction
        | Kind::KnownCode
        | Kind::KnownLevel => number(value).is_some(),
        Kind::Truth => value.is_bool(),
        Kind::Name => value.is_str(),
        Kind::Bytes(..) | Kind::Seed => value.is_str() && is_hex(text(value)),
        Kind::Pattern => pattern_items(value).is_some(),
        Kind::Templates => value.is_array() && items(value).iter().all(is_template),
        Kind::Patterns => value.is_array() && items(value).iter().all(is_pattern),
        Kind::Rows(..) => value.is_array(),
    }
}

fn is_name(text: &[u8]) -> bool {
    1 <= text.len()
        && text.len() <= 16
        && text.iter().all(|c| c.is_ascii_alphanumeric() || *c == b'_')
}

/// Whether a number is within the range of its kind.
fn is_number_allowed(kind: Kind, n: u32) -> bool {
    match kind {
        Kind::Number(least, most) => least <= n && n <= most,
        Kind::Byte => n <= 255,
        Kind::Identifier(most) => n <= most,
        Kind::Separation => n <= 127 || (241 <= n && n <= 249),
        Kind::DataLength => matches!(n, 8 | 12 | 16 | 20 | 24 | 32 | 48 | 64),
        Kind::SubFunction => n <= 65 && n % 2 == 1,
        _ => true,
    }
}

/// Whether a number may be meant at a key of a kind. It is within the key's range, or within that of the key it refers to.
pub fn may_be_meant(kind: Kind, n: u32) -> bool {
    match kind {
        Kind::KnownCode => is_number_allowed(Kind::Identifier(MOST_CODE), n),
        Kind::KnownLevel => n == 0 || is_number_allowed(Kind::SubFunction, n),
        _ => is_number_allowed(kind, n),
    }
}

/// Whether a hex text has so many bytes.
fn has_bytes(least: usize, most: usize, text: &[u8]) -> bool {
    let bytes = text.len() / 2;
    least <= bytes && bytes <= most
}

fn is_short_pattern(value: &Value) -> bool {
    pattern_items(value).is_some_and(|items| items <= 64)
}

/// Whether a value of a kind is allowed.
pub fn is_allowed(kind: Kind, value: &Value) -> bool {
    match kind {
        Kind::Name => is_name(text(value)),
        Kind::Bytes(least, most) => has_bytes(least, most, text(value)),
        Kind::Seed => has_bytes(1, 255, text(value)) && text(value).iter().any(|c| *c != b'0'),
        Kind::Pattern => is_short_pattern(value),
        Kind::Patterns => items(value).len() <= 256 && items(value).iter().all(is_short_pattern),
        Kind::Templates => {
            let templates = items(value);
            1 <= templates.len()
                && templates.len() <= 4096
                && templates
                    .iter()
                    .all(|template| text(template).len() <= 2 * 4095)
        }
        Kind::Rows(_, most) => items(value).len() <= most,
        _ => number(value).is_none_or(|n| is_number_allowed(kind, n)),
    }
}
