//! A setup that passed all tests.

ghost use Rattle.std.specs.Prelude.{IsTrue, IsSome, IfSome, IfOk, ◌≡◌, ◌<◌, ◌≤◌, ◌+◌, ◌-◌, length, Some, slice_get};
ghost use Rattle.std.specs.List.{All, flat_map};
ghost use Rattle.diag_pdu.specs.Length.{length_of};
ghost use Rattle.diag_setup.specs.Setup.{IsSetup, checked, did_id, dtc_code, routine_id, level_sub, name_of, ids_of, link_ids, known_ids, read_ids, tester_of, tx_dl_of, framing_of, link_of, is_fd_of, flags_of, values_of, id_by};
ghost use Rattle.diag_setup.specs.Rows.{is_rising};
ghost use Rattle.diag_setup.specs.Fits.{IdFits, TesterFits, DidFits, DtcFits, RoutineFits, LevelFits, AnswerFits, NumbersFit};

use crate::fault::SetupFault;
use crate::raw::{
    RawAnswer, RawDid, RawDtc, RawLevel, RawPattern, RawRoutine, RawSetup, RawTester,
};
use crate::tester_id::TesterId;
use diag_can::{CanId, Ids, KnownId, TickCount};
use diag_pdu::{DataLength, Framing, LinkSetup};
use std::alloc::{AllocError, Global};
use std::marker::Model;

/// A setup without a fault, its tables in rising order.
pub struct Setup {
    raw: RawSetup,
}

// Written out, so that a function which lets a setup go makes one call, and doesn't go through all that it owns.
impl Drop for Setup {
    fn drop(self) {
        let Setup { raw: _ } = self;
    }
}

impl Model for Setup {
    ghost use Rattle.diag_setup.specs.declared.raw.RawSetup.{RawSetup};
    ghost use Rattle.diag_setup.specs.Setup.{IsSetup};

    ghost Value = { RawSetup };

    ghost view = { λ s. s.raw };

    ghost invariant = { λ s. IsSetup s.raw };
}

/// The values that the services answer with.
#[derive(Clone, Copy, PartialEq, Eq, Debug, Drop)]
pub struct ServerParameters {
    /// P2Server_max in milliseconds (ISO 14229-1:2013, 9.2).
    pub p2_ms: u16,
    /// P2*Server_max in units of 10 ms (9.2).
    pub p2_star_10ms: u16,
    /// S3Server in milliseconds, 1 to 600000.
    pub s3_ms: u32,
    /// DTCStatusAvailabilityMask (11.3).
    pub availability: u8,
}

impl RawSetup {
    /// The setup, its tables sorted where they stand, or the first fault.
    pub fn check(self) -> Result<Setup, SetupFault>
        ensures { result ≡ checked self }
    {
        if let Some(fault) = self.first_fault() {
            return Err(fault);
        }
        let mut raw = self;
        raw.dids.sort();
        raw.dtcs.sort();
        raw.routines.sort();
        raw.levels.sort();
        Ok(Setup { raw })
    }
}

impl Setup {
    /// How many testers there are.
    #[tactic(auto, using(crate::proofs::FitLemmas::testers_few))]
    pub fn testers(&self) -> usize
        ensures same { result ≡ length self.now.testers }
        ensures few { result ≤ 8 }
    {
        self.raw.testers.len()
    }

    /// The tester at an index from 0.
    pub fn who(&self, index: usize) -> TesterId
        requires { index < length self.now.testers }
        ensures { result ≡ index + 1 }
    {
        // (for its contract: they are at most eight)
        let _ = self.testers();
        TesterId::at(index)
    }

    /// A tester's name.
    pub fn name(&self, who: TesterId) -> &[u8]
        requires { who ≤ length self.now.testers }
        ensures { result.now ≡ name_of self.now who }
    {
        self.tester(who).name.as_slice()
    }

    /// The identifiers of a tester's link.
    pub fn ids(&self, who: TesterId) -> Ids
        requires { who ≤ length self.now.testers }
        ensures { result ≡ ids_of self.now who }
    {
        self.tester(who).ids(self.raw().functional)
    }

    /// The identifiers of the testers' links of which lines are read that are passed over otherwise, in a recording of the whole
    /// bus: those of 29 bits, and all of testers that talk by CAN FD.
    pub fn known_ids(&self, alloc: Global) -> Result<Vec<KnownId>, AllocError>
        ensures { IfOk result (λ known. known.items ≡ known_ids self.now) }
    {
        let shared = self.raw().functional;
        known_ids(alloc, self.raw.testers.as_slice(), shared)
    }

    /// The functional identifier of the testers of 11 bits that have none of their own.
    pub fn functional(&self) -> CanId
        ensures { result ≡ self.now.functional }
    {
        can_id(false, self.raw().functional)
    }

    /// The settings of a tester's link.
    pub fn link(&self, who: TesterId) -> LinkSetup
        requires { who ≤ length self.now.testers }
        ensures { result ≡ link_of self.now who }
    {
        let ids = self.ids(who);
        let raw = self.raw();
        LinkSetup {
            ids,
            block_size: raw.block_size as u8,
            st_min: raw.st_min as u8,
            max_request: raw.max_request as u16,
            framing: self.framing(who),
            n_bs: tick_count(raw.n_bs_ms),
            n_cr: tick_count(raw.n_cr_ms),
        }
    }

    /// How the frames to a tester are made.
    fn framing(&self, who: TesterId) -> Framing
        requires { who ≤ length self.now.testers }
        ensures { result ≡ framing_of self.now (tester_of self.now who) }
    {
        let tx_dl = self.tester(who).tx_dl(self.raw().tx_dl);
        let raw = self.raw();
        let pad_byte = raw.pad_byte as u8;
        Framing {
            tx_dl,
            pad: if raw.pad { Some(pad_byte) } else { None },
            fill: pad_byte,
        }
    }

    /// Whether a tester and the unit talk by CAN FD.
    pub fn is_fd(&self, who: TesterId) -> bool
        requires { who ≤ length self.now.testers }
        ensures { result ≡ is_fd_of self.now who }
    {
        self.tester(who).fd
    }

    /// The flags in the lines of what is sent to a tester, a hex digit; None where it is classic CAN.
    pub fn flags(&self, who: TesterId) -> Option<u8>
        requires { who ≤ length self.now.testers }
        ensures same { result ≡ flags_of self.now who }
        ensures fits { IfSome result (λ flags. flags ≤ 15) }
    {
        if self.is_fd(who) {
            Some(self.raw().fd_flags as u8)
        } else {
            None
        }
    }

    /// The values that the services answer with.
    pub fn values(&self) -> ServerParameters
        ensures { result ≡ values_of self.now }
    {
        let raw = self.raw();
        ServerParameters {
            p2_ms: raw.p2_ms as u16,
            p2_star_10ms: raw.p2_star_10ms as u16,
            s3_ms: raw.s3_ms,
            availability: raw.availability as u8,
        }
    }

    #[tactic(auto, using(crate::proofs::FitLemmas::testers_fit))]
    fn tester(&self, who: TesterId) -> &RawTester
        requires { who ≤ length self.now.testers }
        ensures same { slice_get self.now.testers (who - 1) ≡ Some result.now }
        ensures fits { TesterFits result.now }
    {
        &self.raw.testers.as_slice()[who.index()]
    }

    /// The setup that was checked, its tables in rising order; its numbers fit.
    #[tactic(auto, using(crate::proofs::FitLemmas::numbers_fit))]
    pub fn raw(&self) -> &RawSetup
        ensures same { result.now ≡ self.now }
        ensures fits { NumbersFit self.now }
        ensures checked { IsSetup self.now }
    {
        &self.raw
    }

    /// The data identifiers in rising order.
    #[tactic(auto, using(crate::proofs::FitLemmas::dids_fit, crate::proofs::FitLemmas::dids_few, crate::proofs::FitLemmas::dids_rise))]
    pub fn dids(&self) -> &[RawDid]
        ensures same { result.now ≡ self.now.dids }
        ensures rising { IsTrue (is_rising did_id result.now) }
        ensures few { length result.now ≤ 1024 }
        ensures fit { All DidFits result.now }
    {
        self.raw.dids.as_slice()
    }

    /// The DTCs in rising order.
    #[tactic(auto, using(crate::proofs::FitLemmas::dtcs_fit, crate::proofs::FitLemmas::dtcs_few, crate::proofs::FitLemmas::dtcs_rise))]
    pub fn dtcs(&self) -> &[RawDtc]
        ensures same { result.now ≡ self.now.dtcs }
        ensures rising { IsTrue (is_rising dtc_code result.now) }
        ensures few { length result.now ≤ 4096 }
        ensures fit { All DtcFits result.now }
    {
        self.raw.dtcs.as_slice()
    }

    /// The routines by rising identifier.
    #[tactic(auto, using(crate::proofs::FitLemmas::routines_fit, crate::proofs::FitLemmas::routines_few, crate::proofs::FitLemmas::routines_rise))]
    pub fn routines(&self) -> &[RawRoutine]
        ensures same { result.now ≡ self.now.routines }
        ensures rising { IsTrue (is_rising routine_id result.now) }
        ensures few { length result.now ≤ 256 }
        ensures fit { All RoutineFits result.now }
    {
        self.raw.routines.as_slice()
    }

    /// The security levels by rising sub-function.
    #[tactic(auto, using(crate::proofs::FitLemmas::levels_fit, crate::proofs::FitLemmas::levels_few, crate::proofs::FitLemmas::levels_rise))]
    pub fn levels(&self) -> &[RawLevel]
        ensures same { result.now ≡ self.now.levels }
        ensures rising { IsTrue (is_rising level_sub result.now) }
        ensures few { length result.now ≤ 4 }
        ensures fit { All LevelFits result.now }
    {
        self.raw.levels.as_slice()
    }

    /// The rows of answers, in the order in which they are looked at.
    #[tactic(auto, using(crate::proofs::FitLemmas::answers_few))]
    pub fn answers(&self) -> &[RawAnswer]
        ensures same { result.now ≡ self.now.answers }
        ensures few { length result.now ≤ 1024 }
        ensures fit { All AnswerFits result.now }
    {
        self.raw.answers.as_slice()
    }

    /// The patterns of the requests whose answers aren't compared with a recording's.
    pub fn ignore(&self) -> &[RawPattern]
        ensures { result.now ≡ self.now.ignore }
    {
        self.raw.ignore.as_slice()
    }
}

impl RawTester {
    /// The identifiers of its link, where the setup has this functional one of 11 bits.
    fn ids(&self, shared: u32) -> Ids
        requires fits { TesterFits self.now }
        requires shared { shared ≤ 0x7FF }
        ensures { result ≡ link_ids shared self.now }
    {
        Ids {
            request: can_id(self.extended, self.request),
            response: can_id(self.extended, self.response),
            functional: can_id(self.extended, self.functional_number(shared)),
            fd: self.fd,
        }
    }

    /// TX_DL of the frames to it, where the unit has this one for testers that talk by CAN FD.
    fn tx_dl(&self, most: u32) -> DataLength
        requires { IsSome (length_of most) }
        ensures { result ≡ tx_dl_of most self.now }
    {
        if self.fd {
            data_length(most)
        } else {
            DataLength::Dl8
        }
    }
}

/// The identifiers of these testers' links of which lines are read that are passed over otherwise.
fn known_ids(alloc: Global, testers: &[RawTester], shared: u32) -> Result<Vec<KnownId>, AllocError>
    requires fit { All TesterFits testers.now }
    requires shared { shared ≤ 0x7FF }
    ensures { IfOk result (λ known. known.items ≡ flat_map (read_ids shared) testers.now) }
{
    let mut known = Vec::new(alloc);
    for tester in testers {
        if tester.extended || tester.fd {
            known.extend_from_slice(&tester.ids(shared).known())?;
        }
    }
    Ok(known)
}

/// The identifier of a number that one has, of 29 bits or of 11.
fn can_id(wide: bool, number: u32) -> CanId
    requires { IdFits wide number }
    ensures { result ≡ id_by wide number }
{
    let id = if wide {
        CanId::extended(number)
    } else {
        CanId::new(number as u16)
    };
    let Some(id) = id else { unreachable!() };
    id
}

/// The length of so many bytes.
fn data_length(bytes: u32) -> DataLength
    requires { IsSome (length_of bytes) }
    ensures { length_of bytes ≡ Some result }
{
    let Some(length) = DataLength::of(bytes as usize) else {
        unreachable!()
    };
    length
}

/// That many ticks.
fn tick_count(count: u32) -> TickCount
    requires some { 1 ≤ count }
    requires most { count ≤ 60000 }
    ensures { result ≡ count }
{
    let Some(ticks) = TickCount::new(count as u16) else {
        unreachable!()
    };
    ticks
}
