//! The tables of a setup.

ghost use Rattle.toml.specs.View.{table_view};
ghost use Rattle.diag_config.specs.Key.{KeyGives};
ghost use Rattle.diag_config.specs.Setup.{tester_at, did_at, dtc_at, done_at, routine_at, row_at, level_at, answer_at, timing_at, transport_at, server_at, ignore_at, tables_at, setup_at};

use crate::answer::{Patterns, Reply};
use crate::fault::KeyFault;
use crate::table::{FromTable, at_top, optional, required, with_default};
use crate::value::{Hex, Text};
use diag_setup::{
    Items, RawAnswer, RawDid, RawDtc, RawKeyRow, RawLevel, RawPattern, RawRoutine, RawSetup,
    RawTester,
};
use std::alloc::Global;
use toml::Table;

/// The times of the server, in milliseconds (P2* in ten).
#[derive(Clone, Copy)]
struct Times {
    p2_ms: u32,
    p2_star_10ms: u32,
    s3_ms: u32,
    n_bs_ms: u32,
    n_cr_ms: u32,
}

/// What the links have in common.
#[derive(Clone, Copy)]
struct LinkValues {
    block_size: u32,
    st_min: u32,
    max_request: u32,
    pad: bool,
    pad_byte: u32,
    tx_dl: u32,
    fd_flags: u32,
}

/// What the services have in common.
#[derive(Clone, Copy)]
struct ServerValues {
    availability: u32,
    functional: u32,
    attempts: u32,
    delay_ms: u32,
}

/// The tables of a setup, a list for each kind.
#[derive(Drop)]
struct SetupTables {
    testers: Items<RawTester>,
    dids: Items<RawDid>,
    dtcs: Items<RawDtc>,
    routines: Items<RawRoutine>,
    levels: Items<RawLevel>,
    answers: Items<RawAnswer>,
}

impl FromTable for RawTester {
    ghost at = { tester_at };

    #[tactic(auto, unfolding(crate::specs::Setup::tester_at))]
    fn from_table(alloc: Global, table: &Table) -> Result<RawTester, KeyFault> {
        let name: Text = required(alloc, table, "name", "tester.name")?;
        let request: u32 = required(alloc, table, "request", "tester.request")?;
        let response: u32 = required(alloc, table, "response", "tester.response")?;
        let extended = with_default(alloc, table, "extended", "tester.extended", false)?;
        let functional = optional(alloc, table, "functional", "tester.functional")?;
        let fd = with_default(alloc, table, "fd", "tester.fd", false)?;
        Ok(RawTester {
            name: name.0,
            request,
            response,
            extended,
            functional,
            fd,
        })
    }
}

impl FromTable for RawDid {
    ghost at = { did_at };

    #[tactic(auto, unfolding(crate::specs::Setup::did_at))]
    fn from_table(alloc: Global, table: &Table) -> Result<RawDid, KeyFault> {
        let id: u32 = required(alloc, table, "id", "did.id")?;
        let value: Hex = required(alloc, table, "value", "did.value")?;
        let read_level = with_default(alloc, table, "read_level", "did.read_level", 0u32)?;
        let write = with_default(alloc, table, "write", "did.write", false)?;
        let write_level = with_default(alloc, table, "write_level", "did.write_level", 0u32)?;
        let varies = with_default(alloc, table, "varies", "did.varies", false)?;
        Ok(RawDid {
            id,
            value: value.0,
            read_level,
            write,
            write_level,
            varies,
        })
    }
}

impl FromTable for RawDtc {
    ghost at = { dtc_at };

    #[tactic(auto, unfolding(crate::specs::Setup::dtc_at))]
    fn from_table(alloc: Global, table: &Table) -> Result<RawDtc, KeyFault> {
        let code: u32 = required(alloc, table, "code", "code.code")?;
        let status: u32 = required(alloc, table, "status", "code.status")?;
        Ok(RawDtc { code, status })
    }
}

/// The DTC that a routine sets when it is done. Its status is looked at only where the DTC is given.
#[tactic(auto, unfolding(crate::specs::Setup::done_at))]
fn done(alloc: Global, table: &Table) -> Result<Option<RawDtc>, KeyFault>
    ensures { KeyGives (λ x. x) result (done_at (table_view table.now)) }
{
    let code: Option<u32> = optional(alloc, table, "code", "routine.code")?;
    match code {
        None => Ok(None),
        Some(code) => {
            let status: u32 = required(alloc, table, "status", "routine.status")?;
            Ok(Some(RawDtc { code, status }))
        }
    }
}

impl FromTable for RawRoutine {
    ghost at = { routine_at };

    #[tactic(auto, unfolding(crate::specs::Setup::routine_at))]
    fn from_table(alloc: Global, table: &Table) -> Result<RawRoutine, KeyFault> {
        let id: u32 = required(alloc, table, "id", "routine.id")?;
        let time_ms: u32 = required(alloc, table, "time_ms", "routine.time_ms")?;
        let nothing = Hex(Items::new(alloc));
        let outcome = with_default(alloc, table, "result", "routine.result", nothing)?;
        let level = with_default(alloc, table, "level", "routine.level", 0u32)?;
        let on_done = done(alloc, table)?;
        Ok(RawRoutine {
            id,
            time_ms,
            result: outcome.0,
            level,
            on_done,
        })
    }
}

impl FromTable for RawKeyRow {
    ghost at = { row_at };

    #[tactic(auto, unfolding(crate::specs::Setup::row_at))]
    fn from_table(alloc: Global, table: &Table) -> Result<RawKeyRow, KeyFault> {
        let seed: Hex = required(alloc, table, "seed", "level.row.seed")?;
        let key: Hex = required(alloc, table, "key", "level.row.key")?;
        Ok(RawKeyRow {
            seed: seed.0,
            key: key.0,
        })
    }
}

impl FromTable for RawLevel {
    ghost at = { level_at };

    #[tactic(auto, unfolding(crate::specs::Setup::level_at))]
    fn from_table(alloc: Global, table: &Table) -> Result<RawLevel, KeyFault> {
        let request_seed: u32 = required(alloc, table, "sub", "level.sub")?;
        let any_key = with_default(alloc, table, "any_key", "level.any_key", false)?;
        let varies = with_default(alloc, table, "varies", "level.varies", false)?;
        let rows = with_default(
            alloc,
            table,
            "row",
            "level.row",
            Items::<RawKeyRow>::new(alloc),
        )?;
        Ok(RawLevel {
            request_seed,
            any_key,
            varies,
            rows,
        })
    }
}

impl FromTable for RawAnswer {
    ghost at = { answer_at };

    #[tactic(auto, unfolding(crate::specs::Setup::answer_at))]
    fn from_table(alloc: Global, table: &Table) -> Result<RawAnswer, KeyFault> {
        let request: RawPattern = required(alloc, table, "request", "answer.request")?;
        let reply: Option<Reply> = optional(alloc, table, "reply", "answer.reply")?;
        let session = with_default(alloc, table, "session", "answer.session", 0u32)?;
        let level = with_default(alloc, table, "level", "answer.level", 0u32)?;
        let enter = with_default(alloc, table, "enter", "answer.enter", 0u32)?;
        let after_ms = with_default(alloc, table, "after_ms", "answer.after_ms", 0u32)?;
        Ok(RawAnswer {
            pattern: request.items,
            more: request.more,
            reply: reply.map(|templates| templates.0),
            session,
            level,
            enter,
            after_ms,
        })
    }
}

/// The keys of times.
#[tactic(auto, unfolding(crate::specs::Setup::timing_at))]
fn timing(alloc: Global, table: &Table) -> Result<Times, KeyFault>
    ensures { KeyGives (λ x. x) result (timing_at (table_view table.now)) }
{
    let p2_ms = at_top(alloc, table, "p2_ms", 50u32)?;
    let p2_star_10ms = at_top(alloc, table, "p2_star_10ms", 500u32)?;
    let s3_ms = at_top(alloc, table, "s3_ms", 5000u32)?;
    let n_bs_ms = at_top(alloc, table, "n_bs_ms", 1000u32)?;
    let n_cr_ms = at_top(alloc, table, "n_cr_ms", 1000u32)?;
    Ok(Times {
        p2_ms,
        p2_star_10ms,
        s3_ms,
        n_bs_ms,
        n_cr_ms,
    })
}

/// The keys of the links.
#[tactic(auto, unfolding(crate::specs::Setup::transport_at))]
fn transport(alloc: Global, table: &Table) -> Result<LinkValues, KeyFault>
    ensures { KeyGives (λ x. x) result (transport_at (table_view table.now)) }
{
    let block_size = at_top(alloc, table, "block_size", 0u32)?;
    let st_min = at_top(alloc, table, "st_min", 0u32)?;
    let max_request = at_top(alloc, table, "max_request", 4095u32)?;
    let pad = at_top(alloc, table, "pad", true)?;
    let pad_byte = at_top(alloc, table, "pad_byte", 204u32)?;
    let tx_dl = at_top(alloc, table, "tx_dl", 64u32)?;
    let fd_flags = at_top(alloc, table, "fd_flags", 1u32)?;
    Ok(LinkValues {
        block_size,
        st_min,
        max_request,
        pad,
        pad_byte,
        tx_dl,
        fd_flags,
    })
}

/// The keys of the services.
#[tactic(auto, unfolding(crate::specs::Setup::server_at))]
fn server(alloc: Global, table: &Table) -> Result<ServerValues, KeyFault>
    ensures { KeyGives (λ x. x) result (server_at (table_view table.now)) }
{
    let availability = at_top(alloc, table, "availability", 255u32)?;
    let functional = at_top(alloc, table, "functional", 2015u32)?;
    let attempts = at_top(alloc, table, "attempts", 3u32)?;
    let delay_ms = at_top(alloc, table, "delay_ms", 10000u32)?;
    Ok(ServerValues {
        availability,
        functional,
        attempts,
        delay_ms,
    })
}

/// The patterns of the requests whose answers aren't compared.
#[tactic(auto, unfolding(crate::specs::Setup::ignore_at))]
fn ignore(alloc: Global, table: &Table) -> Result<Items<RawPattern>, KeyFault>
    ensures { KeyGives (λ x. x) result (ignore_at (table_view table.now)) }
{
    let none = Patterns(Items::new(alloc));
    let patterns = at_top(alloc, table, "ignore", none)?;
    Ok(patterns.0)
}

/// The keys of the lists.
#[tactic(auto, unfolding(crate::specs::Setup::tables_at))]
fn tables(alloc: Global, table: &Table) -> Result<SetupTables, KeyFault>
    ensures { KeyGives (λ x. x) result (tables_at (table_view table.now)) }
{
    let testers = at_top(alloc, table, "tester", Items::<RawTester>::new(alloc))?;
    let dids = at_top(alloc, table, "did", Items::<RawDid>::new(alloc))?;
    let dtcs = at_top(alloc, table, "code", Items::<RawDtc>::new(alloc))?;
    let routines = at_top(alloc, table, "routine", Items::<RawRoutine>::new(alloc))?;
    let levels = at_top(alloc, table, "level", Items::<RawLevel>::new(alloc))?;
    let answers = at_top(alloc, table, "answer", Items::<RawAnswer>::new(alloc))?;
    Ok(SetupTables {
        testers,
        dids,
        dtcs,
        routines,
        levels,
        answers,
    })
}

/// The setup that a table's keys say, all of them in order.
#[tactic(auto, unfolding(crate::specs::Setup::setup_at))]
pub fn setup(alloc: Global, table: &Table) -> Result<RawSetup, KeyFault>
    ensures { KeyGives (λ x. x) result (setup_at (table_view table.now)) }
{
    let timing = timing(alloc, table)?;
    let transport = transport(alloc, table)?;
    let server = server(alloc, table)?;
    let ignore = ignore(alloc, table)?;
    let tables = tables(alloc, table)?;
    Ok(RawSetup {
        p2_ms: timing.p2_ms,
        p2_star_10ms: timing.p2_star_10ms,
        s3_ms: timing.s3_ms,
        n_bs_ms: timing.n_bs_ms,
        n_cr_ms: timing.n_cr_ms,
        block_size: transport.block_size,
        st_min: transport.st_min,
        max_request: transport.max_request,
        pad: transport.pad,
        pad_byte: transport.pad_byte,
        tx_dl: transport.tx_dl,
        fd_flags: transport.fd_flags,
        availability: server.availability,
        functional: server.functional,
        attempts: server.attempts,
        delay_ms: server.delay_ms,
        testers: tables.testers,
        dids: tables.dids,
        dtcs: tables.dtcs,
        routines: tables.routines,
        levels: tables.levels,
        answers: tables.answers,
        ignore,
    })
}
