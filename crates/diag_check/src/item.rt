//! What an item of a list may be meant to be that is no template, or no pattern.

use crate::finding::{MOST_SHOWN, Meant, digits_of, is_hex};
use crate::keys::Kind;
use crate::value::is_template_text;
use std::alloc::{AllocError, Global};
use toml::Value;

/// How an item of a list of templates or patterns may be meant that is none; empty where there is no guess.
pub fn item_hint(alloc: Global, kind: Kind, item: &Value) -> Result<String, AllocError> {
    match (kind, item) {
        (Kind::Templates, Value::String(text)) if text.len() <= MOST_SHOWN => {
            template_hint(alloc, text.as_str())
        }
        (Kind::Patterns, _) => {
            let meant = Meant(Kind::Pattern, item);
            format!(in alloc; "{meant}")
        }
        _ => Ok(String::new(alloc)),
    }
}

/// How a text may be meant that stands where a template belongs.
fn template_hint(alloc: Global, text: &str) -> Result<String, AllocError> {
    if let Some(meant) = without_spaces(alloc, text)? {
        let meant = meant.as_str();
        return format!(in alloc; "; {meant}?");
    }
    let told = if text.contains("..") || text.ends_with('*') {
        "; .. and * stand in a pattern alone"
    } else if is_hex(text) {
        "; hex digits come in pairs: is one missing?"
    } else {
        ""
    };
    String::from_str(alloc, told)
}

/// The template that a text is without its spaces and each `0x`, where these stand between its items or behind `$`.
fn without_spaces(alloc: Global, text: &str) -> Result<Option<String>, AllocError> {
    let mut template = String::new(alloc);
    for part in text.split_ascii_whitespace() {
        template.push_str(digits_of(part))?;
        if template.len() % 2 == 1 && !template.as_str().ends_with('$') {
            return Ok(None);
        }
    }
    let is_template = is_template_text(template.as_str().as_bytes());
    Ok(is_template.then_some(template))
}
