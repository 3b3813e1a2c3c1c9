//! What is odd about a setup without being a fault.

use crate::finding::Row;
use crate::look::{Look, list_at};
use crate::pairs::{FUNCTIONAL_EXTENDED, is_extended, is_fd, number_at};
use crate::value::number;
use std::alloc::AllocError;
use toml::{Table as Tree, Value};

/// How far a response's identifier is above its request's (ISO 15765-4).
const PARTNER: u32 = 8;

/// The first two bytes of a request to one ECU in normal fixed addressing.
const FIXED: (u8, u8) = (0x18, 0xDA);

/// The same of a request to all ECUs.
const FIXED_FUNCTIONAL: (u8, u8) = (0x18, 0xDB);

/// The address of a tester in these (ISO 15765-4).
const TESTER: u8 = 0xF1;

/// The greatest identifier of 11 bits.
const GREATEST_OF_11_BITS: u32 = 0x7FF;

/// What decimal numbers of three digits look like an identifier of diagnostics in hex.
const LEAST_LOOK: u32 = 600;

const MOST_LOOK: u32 = 799;

impl Look<'_> {
    /// An identifier that stands in the text as a decimal number, and looks like one in hex.
    pub fn decimal(&mut self, tree: &Tree, name: &str, row: Row) -> Result<(), AllocError> {
        let Some(id) = number_at(tree, name) else {
            return Ok(());
        };
        if LEAST_LOOK <= id && id <= MOST_LOOK {
            let numeral = format!(in self.alloc; "{id}")?;
            if self.text.contains(numeral.as_str()) {
                let text = format!(in self.alloc; "{name}{row}: {id} is 0x{id:X}; 0x{id}?")?;
                self.remark(row.key(name), text)?;
            }
        }
        Ok(())
    }

    /// What counts for testers that talk by CAN FD alone, where there is none.
    pub fn without_fd(&mut self, tree: &Tree) -> Result<(), AllocError> {
        let has_fd = list_at(tree, "tester").iter().any(is_fd_tester);
        for name in ["tx_dl", "fd_flags"] {
            if !has_fd && tree.get(name).is_some() {
                let text = format!(in self.alloc;
                    "{name}: it counts for a [[tester]] with fd = true alone, and there is none"
                )?;
                self.remark(Row::UNIT.key(name), text)?;
            }
        }
        Ok(())
    }

    /// The identifiers of a tester.
    pub fn tester(&mut self, tester: &Tree, row: Row) -> Result<(), AllocError> {
        let is_extended = is_extended(tester);
        for name in &["request", "response", "functional"] {
            self.number(tester, name, row)?;
        }
        let ids = (number_at(tester, "request"), number_at(tester, "response"));
        match ids {
            (Some(request), Some(response)) if is_extended => {
                self.fixed_pair(request, response, row)?;
                self.fixed_source(tester, request, row)
            }
            (Some(request), Some(response)) => self.pair(request, response, row),
            _ => Ok(()),
        }
    }

    /// An identifier that looks like one of the other base, or of the other kind.
    fn number(&mut self, tester: &Tree, name: &str, row: Row) -> Result<(), AllocError> {
        if !is_extended(tester) {
            return self.decimal(tester, name, row);
        }
        match number_at(tester, name) {
            Some(id) if id <= GREATEST_OF_11_BITS => {
                let text = format!(in self.alloc;
                    "{name}{row} is 0x{id:X}, of 29 bits by extended = true; of 11 bits?"
                )?;
                self.remark(row.key(name), text)
            }
            _ => Ok(()),
        }
    }

    /// An identifier of ISO 15765-4 without its partner.
    fn pair(&mut self, request: u32, response: u32, row: Row) -> Result<(), AllocError> {
        let is_odd = is_obd_request(request) != is_obd_response(response)
            || (is_obd_request(request) && response.checked_sub(request) != Some(PARTNER));
        if is_odd {
            let text = format!(in self.alloc;
                "request{row} is 0x{request:X} and response 0x{response:X}: ISO 15765-4 has 0x7E0 to 0x7E7, each with the response 8 above"
            )?;
            self.remark(row.key("request"), text)?;
        }
        Ok(())
    }

    /// A request of normal fixed addressing whose response isn't from its target to its source (ISO 15765-2:2016, 10.3.3).
    fn fixed_pair(&mut self, request: u32, response: u32, row: Row) -> Result<(), AllocError> {
        let [kind, format, target, source] = request.to_be_bytes();
        let partner = u32::from_be_bytes([kind, format, source, target]);
        if (kind, format) == FIXED && response != partner {
            let text = format!(in self.alloc;
                "request{row} is 0x{request:X} and response 0x{response:X}: with normal fixed addressing it is 0x{partner:X}"
            )?;
            self.remark(row.key("request"), text)?;
        }
        Ok(())
    }

    /// A request of normal fixed addressing that is one to a tester, or whose functional identifier is another tester's.
    fn fixed_source(&mut self, tester: &Tree, request: u32, row: Row) -> Result<(), AllocError> {
        let [kind, format, target, source] = request.to_be_bytes();
        if (kind, format) != FIXED {
            return Ok(());
        }
        if target == TESTER && source != TESTER {
            let text = format!(in self.alloc;
                "request{row} is 0x{request:X}, which goes to a tester, {TESTER:X}: are request and response swapped?"
            )?;
            return self.remark(row.key("request"), text);
        }
        let (id, by) = match tester.get("functional") {
            None => (FUNCTIONAL_EXTENDED, ", by default"),
            Some(value) => (number(value).unwrap_or(0), ""),
        };
        let [kind, format, all, other] = id.to_be_bytes();
        let own = u32::from_be_bytes([kind, format, all, source]);
        if (kind, format) == FIXED_FUNCTIONAL && other != source {
            let text = format!(in self.alloc;
                "functional{row} is 0x{id:X}{by}, of another tester than request 0x{request:X}; 0x{own:X}?"
            )?;
            self.remark(row.key("functional"), text)?;
        }
        Ok(())
    }

    /// A level for writing a value that can't be written.
    pub fn did(&mut self, did: &Tree, row: Row) -> Result<(), AllocError> {
        let is_written = matches!(did.get("write"), Some(Value::Boolean(true)));
        let has_level = number_at(did, "write_level").is_some_and(|level| level > 0);
        if has_level && !is_written {
            let text = format!(in self.alloc;
                "write_level{row}: it can't be written; write = true?"
            )?;
            self.remark(row.key("write_level"), text)?;
        }
        Ok(())
    }

    /// A row of answers that never applies, whichever rows stand before it.
    pub fn never_applies(&mut self, answer: &Tree, row: Row) -> Result<(), AllocError> {
        let session = number_at(answer, "session").unwrap_or(0);
        let level = number_at(answer, "level").unwrap_or(0);
        if is_never_met(session, level) {
            let text = format!(in self.alloc;
                "session{row} is 1 beside a level: the row never applies, for session 1 unlocks none"
            )?;
            self.remark(row.key("session"), text)?;
        }
        Ok(())
    }
}

/// Whether a row of answers is for session 1 and needs a level, which session 1 never unlocks.
pub fn is_never_met(session: u32, level: u32) -> bool {
    session == 1 && level > 0
}

fn is_fd_tester(tester: &Value) -> bool {
    match tester {
        Value::Table(tester) => is_fd(tester),
        _ => false,
    }
}

fn is_obd_request(id: u32) -> bool {
    0x7E0 <= id && id <= 0x7E7
}

fn is_obd_response(id: u32) -> bool {
    0x7E8 <= id && id <= 0x7EF
}
