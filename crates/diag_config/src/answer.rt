//! The texts of patterns and templates.

ghost use Rattle.std.specs.Prelude.{ℕ, ◌≡◌, ◌≤◌, List, Result, Err, Option, IfSome, IsTrue};
ghost use Rattle.hex.specs.Hex.{hex_digit_value};
ghost use Rattle.toml.specs.View.{view, items_view};
ghost use Rattle.diag_config.specs.Answer.{byte_of, pattern_item, template_item, items_of, pattern_of, template_of};
ghost use Rattle.diag_config.specs.Key.{KeyGives, is_list, is_text};
ghost use Rattle.diag_config.specs.Setup.{each, list, or_bad_value, pattern, template};

use crate::fault::KeyFault;
use crate::value::FromValue;
use diag_setup::{Items, PatternItem, RawPattern, TemplateItem};
use std::alloc::Global;
use toml::Value;

/// The value of a hex digit of either case.
fn hex_digit(c: u8) -> Option<u8>
    ensures value { result ≡ hex_digit_value c }
    ensures small { IfSome result (λ v. v ≤ 15) }
{
    match c {
        b'A'..=b'F' => Some(c - b'A' + 10),
        b'a'..=b'f' => Some(c - b'a' + 10),
        b'0'..=b'9' => Some(c - b'0'),
        _ => None,
    }
}

/// The byte that two hex digits write.
fn byte(high: u8, low: u8) -> Option<u8>
    ensures { result ≡ byte_of high low }
{
    let (Some(high), Some(low)) = (hex_digit(high), hex_digit(low)) else {
        return None;
    };
    Some(high * 16 + low)
}

/// An item of a text, which two characters say.
trait TextItem: Sized + Drop {
    ghost item_of: { ℕ → ℕ → Option Self };

    fn read(first: u8, second: u8) -> Option<Self>
        ensures { result ≡ item_of first second };
}

impl TextItem for PatternItem {
    ghost item_of = { pattern_item };

    fn read(first: u8, second: u8) -> Option<PatternItem> {
        if first == b'.' && second == b'.' {
            return Some(PatternItem::Any);
        }
        byte(first, second).map(PatternItem::Byte)
    }
}

impl TextItem for TemplateItem {
    ghost item_of = { template_item };

    fn read(first: u8, second: u8) -> Option<TemplateItem> {
        if first == b'?' && second == b'?' {
            return Some(TemplateItem::Varies);
        }
        if first == b'$' {
            return hex_digit(second).map(TemplateItem::OfRequest);
        }
        byte(first, second).map(TemplateItem::Byte)
    }
}

/// The items of a text, and the character behind them, where one is left.
fn items<T: TextItem>(
    alloc: Global,
    key: &'static str,
    text: &[u8],
) -> Result<(Items<T>, Option<u8>), KeyFault>
    ensures { KeyGives (λ read. read) result (or_bad_value key.now (items_of T.item_of text.now)) }
{
    let mut read = Items::new(alloc);
    let mut rest = text;
    while let [first, second, tail @ ..] = rest {
        let Some(item) = T::read(*first, *second) else {
            return Err(KeyFault::BadValue(key));
        };
        read.push(item)?;
        rest = tail;
    }
    Ok((read, rest.first().copied()))
}

impl FromValue for RawPattern {
    ghost use Rattle.diag_setup.specs.declared.raw.RawPattern.{RawPattern};

    ghost Said = { RawPattern };

    ghost said = { λ p. p };

    ghost kind = { pattern };

    ghost takes = { is_text };

    fn from_value(alloc: Global, key: &'static str, value: &Value) -> Result<RawPattern, KeyFault> {
        pattern(alloc, key, value)
    }
}

/// What a pattern says.
fn pattern(alloc: Global, key: &'static str, value: &Value) -> Result<RawPattern, KeyFault>
    ensures gives { KeyGives (λ p. p) result (pattern key.now (view value.now)) }
    ensures memory { result ≡ Err KeyFault.Memory → IsTrue (is_text (view value.now)) }
{
    match value {
        Value::String(s) => read_pattern(alloc, key, s.as_bytes()),
        _ => Err(KeyFault::BadValue(key)),
    }
}

/// What the patterns of a list say, one after the other.
fn each_pattern(
    alloc: Global,
    key: &'static str,
    values: &[Value],
) -> Result<Items<RawPattern>, KeyFault>
    ensures { KeyGives (λ patterns. patterns) result (each (pattern key.now) (items_view values.now)) }
{
    let mut read = Items::new(alloc);
    for value in values {
        read.push(pattern(alloc, key, value)?)?;
    }
    Ok(read)
}

/// A list of patterns.
#[derive(Drop)]
pub struct Patterns(pub Items<RawPattern>);

impl FromValue for Patterns {
    ghost use Rattle.std.specs.Prelude.{List};
    ghost use Rattle.diag_setup.specs.declared.raw.RawPattern.{RawPattern};

    ghost Said = { List RawPattern };

    ghost said = { λ p. p.0 };

    ghost kind = { list pattern };

    ghost takes = { is_list };

    fn from_value(alloc: Global, key: &'static str, value: &Value) -> Result<Patterns, KeyFault> {
        match value {
            Value::Array(values) => Ok(Patterns(each_pattern(alloc, key, values.as_slice())?)),
            _ => Err(KeyFault::BadValue(key)),
        }
    }
}

/// The pattern that a text says.
fn read_pattern(alloc: Global, key: &'static str, text: &[u8]) -> Result<RawPattern, KeyFault>
    ensures { KeyGives (λ p. p) result (or_bad_value key.now (pattern_of text.now)) }
{
    let (items, last) = items(alloc, key, text)?;
    if items.len() == 0 {
        return Err(KeyFault::BadValue(key));
    }
    match last {
        None => Ok(RawPattern { items, more: false }),
        Some(b'*') => Ok(RawPattern { items, more: true }),
        Some(_) => Err(KeyFault::BadValue(key)),
    }
}

/// The template that a text says.
fn read_template(
    alloc: Global,
    key: &'static str,
    text: &[u8],
) -> Result<Items<TemplateItem>, KeyFault>
    ensures { KeyGives (λ items. items) result (or_bad_value key.now (template_of text.now)) }
{
    let (items, last) = items(alloc, key, text)?;
    match last {
        None => Ok(items),
        Some(_) => Err(KeyFault::BadValue(key)),
    }
}

/// What a template says.
fn template(
    alloc: Global,
    key: &'static str,
    value: &Value,
) -> Result<Items<TemplateItem>, KeyFault>
    ensures gives { KeyGives (λ items. items) result (template key.now (view value.now)) }
    ensures memory { result ≡ Err KeyFault.Memory → IsTrue (is_text (view value.now)) }
{
    match value {
        Value::String(s) => read_template(alloc, key, s.as_bytes()),
        _ => Err(KeyFault::BadValue(key)),
    }
}

/// What the templates of a list say, one after the other.
fn templates(
    alloc: Global,
    key: &'static str,
    values: &[Value],
) -> Result<Items<Items<TemplateItem>>, KeyFault>
    ensures { KeyGives (λ templates. templates) result (each (template key.now) (items_view values.now)) }
{
    let mut read = Items::new(alloc);
    for value in values {
        read.push(template(alloc, key, value)?)?;
    }
    Ok(read)
}

/// The templates of a row of answers.
#[derive(Drop)]
pub struct Reply(pub Items<Items<TemplateItem>>);

impl FromValue for Reply {
    ghost use Rattle.std.specs.Prelude.{List};
    ghost use Rattle.diag_setup.specs.declared.raw.TemplateItem.{TemplateItem};

    ghost Said = { List (List TemplateItem) };

    ghost said = { λ t. t.0 };

    ghost kind = { list template };

    ghost takes = { is_list };

    fn from_value(alloc: Global, key: &'static str, value: &Value) -> Result<Reply, KeyFault> {
        match value {
            Value::Array(values) => Ok(Reply(templates(alloc, key, values.as_slice())?)),
            _ => Err(KeyFault::BadValue(key)),
        }
    }
}
