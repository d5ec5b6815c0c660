//! The page of counts.

use crate::counts::Counts;
use crate::watched::Watched;
use crate::{calls, seating};
use disk::Counts as Calls;
use metrics::{Kind, Page};
use server::{Room, Server};
use std::alloc::{AllocError, Global};
use std::time::Instant;

/// What there is of each thing, now.
#[derive(Clone, Copy)]
pub struct State {
    pub run: u32,
    pub connections: usize,
    pub clients: usize,
    pub sessions: usize,
    pub opens: usize,
    pub seats: usize,
    pub room: Room,
    /// How often the device was called, if it counts.
    pub calls: Option<Calls>,
}

impl State {
    /// What a server has.
    pub fn of<D: Watched>(server: &Server<D>) -> State {
        State {
            run: calls::restart_count(server),
            connections: server.connection_count(),
            clients: server.client_count(),
            sessions: server.session_count(),
            opens: server.open_count(),
            seats: seating::count(server),
            room: server.room(),
            calls: server.device().calls(),
        }
    }
}

/// The page of these counts.
pub fn page_of(
    alloc: Global,
    state: &State,
    counts: &Counts,
    now: Instant,
) -> Result<Page, AllocError> {
    let mut page = Page::new(alloc);
    match show_all(&mut page, state, counts, now) {
        Ok(()) => Ok(page),
        Err(error) => {
            drop(page);
            Err(error)
        }
    }
}

fn show_all(
    page: &mut Page,
    state: &State,
    counts: &Counts,
    now: Instant,
) -> Result<(), AllocError> {
    show_state(page, state)?;
    show_connections(page, counts)?;
    show_requests(page, counts, now)?;
    counts.operations.show(page)?;
    match &state.calls {
        Some(calls) => show_calls(page, calls, counts.flushes),
        None => Ok(()),
    }
}

fn show_state(page: &mut Page, state: &State) -> Result<(), AllocError> {
    let gauges: [(&str, &str, u64); 8] = [
        (
            "nfs41_run",
            "Restart count of the volume.",
            u64::from(state.run),
        ),
        (
            "nfs41_connections",
            "Connections.",
            state.connections as u64,
        ),
        ("nfs41_clients", "Client records.", state.clients as u64),
        ("nfs41_sessions", "Sessions.", state.sessions as u64),
        ("nfs41_opens", "Open files.", state.opens as u64),
        (
            "nfs41_seats",
            "Seats of persistent sessions that are taken.",
            state.seats as u64,
        ),
        (
            "nfs41_free_sectors",
            "Sectors of 4,096 bytes that are left for files and directories.",
            state.room.sectors,
        ),
        (
            "nfs41_free_nodes",
            "Files and directories that can still be made.",
            state.room.nodes,
        ),
    ];
    for (name, help, value) in gauges {
        page.metric(Kind::Gauge, name, help, value)?;
    }
    Ok(())
}

fn show_connections(page: &mut Page, counts: &Counts) -> Result<(), AllocError> {
    let counters: [(&str, &str, u64); 5] = [
        (
            "nfs41_connections_accepted_total",
            "Connections that got a place.",
            counts.accepted,
        ),
        (
            "nfs41_connections_refused_total",
            "Connections that are not allowed.",
            counts.refused,
        ),
        (
            "nfs41_connections_closed_total",
            "Connections that ended.",
            counts.closed,
        ),
        (
            "nfs41_received_bytes_total",
            "Bytes from clients.",
            counts.bytes.came,
        ),
        (
            "nfs41_sent_bytes_total",
            "Bytes to clients.",
            counts.bytes.went,
        ),
    ];
    for (name, help, value) in counters {
        page.metric(Kind::Counter, name, help, value)?;
    }
    Ok(())
}

fn show_requests(page: &mut Page, counts: &Counts, now: Instant) -> Result<(), AllocError> {
    page.metric(
        Kind::Counter,
        "nfs41_requests_total",
        "Requests that were answered.",
        counts.answered,
    )?;
    page.metric(
        Kind::Counter,
        "nfs41_changes_total",
        "Changes of files and directories.",
        counts.changes,
    )?;
    let name = "nfs41_delayed_total";
    page.begin(
        Kind::Counter,
        name,
        "Operations refused since a table is full.",
    )?;
    page.sample(
        name,
        "operation",
        "EXCHANGE_ID",
        counts.exchange_ids_delayed,
    )?;
    page.sample(
        name,
        "operation",
        "CREATE_SESSION",
        counts.create_sessions_delayed,
    )?;
    page.sample(name, "operation", "OPEN", counts.opens_delayed)?;
    if let Some(last) = counts.last_answer {
        page.metric(
            Kind::Gauge,
            "nfs41_last_request_age_seconds",
            "Seconds since the last request was answered.",
            now.duration_since(last).as_secs(),
        )?;
    }
    Ok(())
}

fn show_calls(page: &mut Page, calls: &Calls, flushes: u64) -> Result<(), AllocError> {
    page.metric(
        Kind::Counter,
        "nfs41_flushes_total",
        "Steps of connections and checkpoints in which the volume's file was synced.",
        flushes,
    )?;
    let name = "nfs41_device_calls_total";
    page.begin(
        Kind::Counter,
        name,
        "Calls of the volume's file, of sectors of 4,096 bytes.",
    )?;
    page.sample(name, "call", "read", calls.reads)?;
    page.sample(name, "call", "write", calls.writes)?;
    page.sample(name, "call", "sync", calls.syncs)
}
