//! The setup of the stored run as a value, for the suites: two testers, a writable identifier, a DTC, a routine and a
//! security level.

ghost use Rattle.std.specs.Prelude.{◌≡◌, IfOk};
ghost use Rattle.diag_setup.specs.Setup.{sorted};
ghost use Rattle.diag_setup.specs.ExampleSetup.{key_row, level, routine, dtc, did, tester, two_testers};

use diag_setup::{
    Items, RawDid, RawDtc, RawKeyRow, RawLevel, RawRoutine, RawSetup, RawTester, Setup,
};
use std::alloc::{AllocError, Global};

/// A setup with the testers A (7E0, 7E8) and B (7E1, 7E9).
///
/// The identifier F190 holds `TESTVIN0123456789` and is written at level 1. The DTC 012345 has the status 2F,
/// and the routine 0203 gives it again when it is done, after 100 ms, with the result 01. Level 1 has two rows:
/// the seed 11223344 with the key AABBCCDD, and 55667788 with 01020304. After three wrong keys the delay is 2000 ms.
pub fn two_testers(alloc: Global) -> Result<Setup, AllocError>
    ensures { IfOk result (λ setup. setup ≡ sorted two_testers) }
{
    let raw = raw_two_testers(alloc)?;
    let Ok(setup) = raw.check() else {
        unreachable!()
    };
    Ok(setup)
}

/// The same before it is checked.
pub fn raw_two_testers(alloc: Global) -> Result<RawSetup, AllocError>
    ensures { IfOk result (λ raw. raw ≡ two_testers) }
{
    let testers = [
        tester(alloc, b"A", 0x7E0, 0x7E8)?,
        tester(alloc, b"B", 0x7E1, 0x7E9)?,
    ];
    Ok(RawSetup {
        p2_ms: 50,
        p2_star_10ms: 500,
        s3_ms: 5000,
        n_bs_ms: 1000,
        n_cr_ms: 1000,
        block_size: 0,
        st_min: 0,
        max_request: 4095,
        pad: true,
        pad_byte: 0xCC,
        tx_dl: 64,
        fd_flags: 1,
        availability: 0xFF,
        functional: 0x7DF,
        attempts: 3,
        delay_ms: 2000,
        testers: rows(alloc, testers)?,
        dids: rows(alloc, [did(alloc)?])?,
        dtcs: rows(alloc, [dtc()])?,
        routines: rows(alloc, [routine(alloc)?])?,
        levels: rows(alloc, [level(alloc)?])?,
        answers: Items::new(alloc),
        ignore: Items::new(alloc),
    })
}

/// A tester.
fn tester(alloc: Global, name: &[u8], request: u32, response: u32) -> Result<RawTester, AllocError>
    ensures { IfOk result (λ made. made ≡ tester name.now request response) }
{
    Ok(RawTester {
        name: bytes(alloc, name)?,
        request,
        response,
        extended: false,
        functional: None,
        fd: false,
    })
}

fn did(alloc: Global) -> Result<RawDid, AllocError>
    ensures { IfOk result (λ made. made ≡ did) }
{
    Ok(RawDid {
        id: 0xF190,
        value: bytes(alloc, b"TESTVIN0123456789")?,
        read_level: 0,
        write: true,
        write_level: 1,
        varies: false,
    })
}

fn dtc() -> RawDtc
    ensures { result ≡ dtc }
{
    RawDtc {
        code: 0x01_2345,
        status: 0x2F,
    }
}

fn routine(alloc: Global) -> Result<RawRoutine, AllocError>
    ensures { IfOk result (λ made. made ≡ routine) }
{
    Ok(RawRoutine {
        id: 0x0203,
        time_ms: 100,
        result: bytes(alloc, &[0x01])?,
        level: 0,
        on_done: Some(dtc()),
    })
}

fn level(alloc: Global) -> Result<RawLevel, AllocError>
    ensures { IfOk result (λ made. made ≡ level) }
{
    let first = key_row(alloc, &[0x11, 0x22, 0x33, 0x44], &[0xAA, 0xBB, 0xCC, 0xDD])?;
    let second = key_row(alloc, &[0x55, 0x66, 0x77, 0x88], &[0x01, 0x02, 0x03, 0x04])?;
    Ok(RawLevel {
        request_seed: 1,
        any_key: false,
        varies: false,
        rows: rows(alloc, [first, second])?,
    })
}

/// A seed with its key.
fn key_row(alloc: Global, seed: &[u8], key: &[u8]) -> Result<RawKeyRow, AllocError>
    ensures { IfOk result (λ made. made ≡ key_row seed.now key.now) }
{
    Ok(RawKeyRow {
        seed: bytes(alloc, seed)?,
        key: bytes(alloc, key)?,
    })
}

/// These bytes.
fn bytes(alloc: Global, bytes: &[u8]) -> Result<Items<u8>, AllocError>
    ensures { IfOk result (λ made. made ≡ bytes.now) }
{
    Ok(Items::from_vec(Vec::from_slice(alloc, bytes)?))
}

fn rows<T: Drop, const N: usize>(alloc: Global, rows: [T; N]) -> Result<Items<T>, AllocError>
    ensures { IfOk result (λ made. made ≡ rows) }
{
    Ok(Items::from_vec(Vec::from_array(alloc, rows)?))
}
