//! What is wrong with a setup: all of it at once, each with its place.
#![tactic(auto)]

ghost use Rattle.std.specs.Prelude.{◌≡◌, [], IfOk, OnOk};
ghost use Rattle.diag_config.specs.Setup.{setup_of};
ghost use Rattle.diag_check.specs.Report.{AreFaultsOf, IsLedBy};

mod across;
mod finding;
mod item;
mod keys;
mod look;
mod near;
mod odd;
mod pairs;
mod places;
mod rule;
mod sessions;
mod syntax;
mod taken;
mod value;

use diag_config::{ConfigFault, read_setup};
pub use finding::{Finding, Remark};
use look::Look;
use std::alloc::{AllocError, Global};
use syntax::slip;

/// What is told of a setup.
#[derive(Drop)]
pub struct Report {
    /// The faults, in the order in which a run looks for them. The first is the one that it tells.
    pub faults: Vec<Finding>,
    /// The keys that are passed over, in the order of the text where their lines are known.
    pub passed: Vec<Remark>,
    /// What is odd without being a fault, in this order too.
    pub odd: Vec<Remark>,
}

impl Report {
    /// That of a text with this fault alone.
    fn of_fault(alloc: Global, fault: Finding) -> Result<Report, AllocError> {
        Ok(Report {
            faults: vec![in alloc; fault]?,
            passed: Vec::new(alloc),
            odd: Vec::new(alloc),
        })
    }

    /// Says that the setup has no fault. What the look took for one is odd.
    fn is_setup(&mut self, alloc: Global) -> Result<(), AllocError>
        ensures { OnOk result (self.new.faults.items ≡ []) }
    {
        for finding in &self.faults {
            self.odd.push(finding.remark(alloc)?)?;
        }
        self.faults.clear();
        Ok(())
    }

    /// Says which fault is the first. It stands before those that were found, where they begin with another.
    fn is_refused(&mut self, alloc: Global, fault: ConfigFault) -> Result<(), AllocError>
        ensures { OnOk result (IsLedBy fault self.new.faults.items) }
    {
        if let [first, ..] = self.faults.as_mut_slice() {
            if first.fault == fault {
                first.fault = fault;
                return Ok(());
            }
        }
        let place = String::from_str(alloc, "the look at the setup found another first")?;
        let line = None;
        self.faults.insert(0, Finding { fault, line, place })?;
        Ok(())
    }

    /// All of it, a line each.
    pub fn text(&self, alloc: Global) -> Result<Vec<u8>, AllocError> {
        let mut text = String::new(alloc);
        add_findings(&mut text, self.faults.as_slice())?;
        add_remarks(&mut text, self.passed.as_slice())?;
        add_remarks(&mut text, self.odd.as_slice())?;
        if text.is_empty() {
            text.push_str("nothing is wrong\n")?;
        }
        Ok(text.into_bytes())
    }
}

/// Adds a line for each fault.
fn add_findings(text: &mut String, findings: &[Finding]) -> Result<(), AllocError> {
    for finding in findings {
        writeln!(text, "{finding}")?;
    }
    Ok(())
}

/// Adds a line for each remark.
fn add_remarks(text: &mut String, remarks: &[Remark]) -> Result<(), AllocError> {
    for remark in remarks {
        writeln!(text, "{remark}")?;
    }
    Ok(())
}

/// All that can be told of a setup file's bytes. It has a fault exactly where `read_setup` has one, and the same first
/// one, for that is the one that it says.
#[tactic(auto, unfolding(crate::specs::Report::IsFault))]
pub fn check(alloc: Global, bytes: &[u8]) -> Result<Report, AllocError>
    ensures { IfOk result (λ report. AreFaultsOf report.faults.items (setup_of bytes.now)) }
{
    let mut report = look_at(alloc, bytes)?;
    match read_setup(alloc, bytes) {
        Ok(_) => report.is_setup(alloc)?,
        Err(ConfigFault::Memory) => return Err(AllocError),
        Err(fault) => report.is_refused(alloc, fault)?,
    };
    Ok(report)
}

/// What the bytes are that are no text.
fn no_text(bytes: &[u8]) -> &'static str {
    match bytes {
        [0x1F, 0x8B, ..] => "the bytes are packed by gzip: unpack the setup",
        [0xFD, b'7', b'z', b'X', b'Z', 0, ..] => "the bytes are packed by xz: unpack the setup",
        [0x28, 0xB5, 0x2F, 0xFD, ..] => "the bytes are packed by zstd: unpack the setup",
        [b'B', b'Z', b'h', b'1'..=b'9', ..] => "the bytes are packed by bzip2: unpack the setup",
        [0xFF, 0xFE, ..] | [0xFE, 0xFF, ..] | [_, 0, ..] | [0, _, ..] => {
            "the bytes are UTF-16: save the setup as UTF-8"
        }
        _ => "the bytes are no UTF-8",
    }
}

/// All that the look at a setup file's bytes finds by itself.
pub fn look_at(alloc: Global, bytes: &[u8]) -> Result<Report, AllocError> {
    match std::str::from_utf8(bytes) {
        Ok(text) => look_at_text(alloc, text),
        Err(_) => Report::of_fault(
            alloc,
            Finding {
                fault: ConfigFault::Syntax,
                line: None,
                place: String::from_str(alloc, no_text(bytes))?,
            },
        ),
    }
}

fn look_at_text(alloc: Global, text: &str) -> Result<Report, AllocError> {
    match toml::table_from_str(alloc, text) {
        Ok(tree) => {
            let mut look = Look::new(alloc, text, &tree);
            look.setup()?;
            Ok(Report {
                faults: look.faults,
                passed: look.passed,
                odd: look.odd,
            })
        }
        Err(e) if e.is_memory() => Err(AllocError),
        Err(e) => Report::of_fault(alloc, slip(alloc, text, &e)?),
    }
}
