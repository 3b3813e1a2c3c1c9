//! Kinds of TOML value, each read in one way.

ghost use Rattle.std.specs.Prelude.{◌≡◌, ℕ, Bool, List, Result, Err, IsTrue};
ghost use Rattle.toml.specs.Data.{Data};
ghost use Rattle.toml.specs.View.{view};
ghost use Rattle.diag_config.specs.Key.{Fault, KeyGives, is_text, nothing};
ghost use Rattle.diag_config.specs.Setup.{number, truth, text, hex};

use crate::fault::KeyFault;
use diag_setup::Items;
use hex::FromHexError;
use std::alloc::Global;
use toml::Value;

/// What a value of one kind says.
pub trait FromValue: Sized + Drop {
    ghost Said: { Type 0 };

    ghost said: { Self → Said };
    // what a value says, or that its key holds a bad one
    ghost kind: { List ℕ → Data → Result Said Fault };
    // whether a value takes memory
    ghost takes: { Data → Bool };

    fn from_value(alloc: Global, key: &'static str, value: &Value) -> Result<Self, KeyFault>
        ensures gives { KeyGives said result (kind key.now (view value.now)) }
        ensures memory { result ≡ Err KeyFault.Memory → IsTrue (takes (view value.now)) };
}

impl FromValue for u32 {
    ghost Said = { ℕ };

    ghost said = { λ n. n };

    ghost kind = { number };

    ghost takes = { nothing };

    fn from_value(_alloc: Global, key: &'static str, value: &Value) -> Result<u32, KeyFault> {
        match value {
            Value::Integer(n) if 0 <= *n && *n <= 4294967295 => Ok(*n as u32),
            _ => Err(KeyFault::BadValue(key)),
        }
    }
}

impl FromValue for bool {
    ghost Said = { Bool };

    ghost said = { λ b. b };

    ghost kind = { truth };

    ghost takes = { nothing };

    fn from_value(_alloc: Global, key: &'static str, value: &Value) -> Result<bool, KeyFault> {
        match value {
            Value::Boolean(b) => Ok(*b),
            _ => Err(KeyFault::BadValue(key)),
        }
    }
}

/// The bytes of a text.
#[derive(Drop)]
pub struct Text(pub Items<u8>);

impl FromValue for Text {
    ghost Said = { List ℕ };

    ghost said = { λ t. t.0 };

    ghost kind = { text };

    ghost takes = { is_text };

    fn from_value(alloc: Global, key: &'static str, value: &Value) -> Result<Text, KeyFault> {
        match value {
            Value::String(s) => {
                let bytes = Vec::from_slice(alloc, s.as_bytes())?;
                Ok(Text(Items::from_vec(bytes)))
            }
            _ => Err(KeyFault::BadValue(key)),
        }
    }
}

/// The bytes that a hex text stands for.
#[derive(Drop)]
pub struct Hex(pub Items<u8>);

impl FromValue for Hex {
    ghost Said = { List ℕ };

    ghost said = { λ t. t.0 };

    ghost kind = { hex };

    ghost takes = { is_text };

    fn from_value(alloc: Global, key: &'static str, value: &Value) -> Result<Hex, KeyFault> {
        let Value::String(s) = value else {
            return Err(KeyFault::BadValue(key));
        };
        match hex::decode(alloc, s.as_str()) {
            Ok(bytes) => Ok(Hex(Items::from_vec(bytes))),
            Err(FromHexError::OutOfMemory) => Err(KeyFault::Memory),
            Err(_) => Err(KeyFault::BadValue(key)),
        }
    }
}
