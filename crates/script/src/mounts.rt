//! Running a script: its users and the server in one thread, which take turns.

use crate::actions::{call, hello, retry, session, take, turn};
use crate::line::{Action, Line, read_line};
use crate::user::User;
use callers::{Caller, ScriptFault, connect, link};
use disk::Device;
use server::{Holding, Server};
use std::alloc::Global;
use std::io::{BufRead, BufWriter, ErrorKind, Read, Write};
use std::net::Net;

/// Why the lines of one mount end.
#[derive(Clone, Copy)]
enum End {
    /// The script ends.
    Script,
    /// The server is to be mounted again.
    Restart,
}

/// Mounts the volume on the device, and runs the script's lines on it. Users reach the server over
/// the loopback interface. What the lines print is written at the script's end, before a mount that
/// one of them asks for, and before a refusal is returned.
///
/// # Errors
/// Script if a line has no form, or names something that is not there; Io if input, output or a
/// socket fails; else what the server or a reply to a user is refused for.
pub fn run_script<R, D, I, O>(
    rt: &R,
    device: &mut D,
    input: &mut I,
    out: &mut O,
) -> Result<(), ScriptFault>
where
    R: Net + AllocGlobal,
    D: Device,
    I: BufRead,
    O: Write,
{
    let mut told = BufWriter::new(rt.alloc(), out)?;
    let outcome = run_mounts(rt, device, input, &mut told);
    told.flush()?;
    outcome
}

/// Runs the lines, mount by mount.
fn run_mounts<R, D, I, O>(
    rt: &R,
    device: &mut D,
    input: &mut I,
    out: &mut O,
) -> Result<(), ScriptFault>
where
    R: Net + AllocGlobal,
    D: Device,
    I: BufRead,
    O: Write,
{
    let mut users = Vec::new(rt.alloc());
    let mut restarted = false;
    for _ in 0..u64::MAX {
        match run_mount(rt, device, &mut users, restarted, input, out)? {
            End::Script => break,
            End::Restart => disconnect(&mut users),
        }
        out.flush()?;
        restarted = true;
    }
    Ok(())
}

/// Mounts the volume, and runs the lines up to the next mount.
fn run_mount<R, D, I, O>(
    rt: &R,
    device: &mut D,
    users: &mut Vec<User<R::Stream>>,
    restarted: bool,
    input: &mut I,
    out: &mut O,
) -> Result<End, ScriptFault>
where
    R: Net + AllocGlobal,
    D: Device,
    I: BufRead,
    O: Write,
{
    let mut server = link::mount(rt.alloc(), device, Holding::All)?;
    run_server(rt, &mut server, users, restarted, input, out)
}

/// Prints the run of a restart, and runs the lines of this mount.
fn run_server<R, D, I, O>(
    rt: &R,
    server: &mut Server<D>,
    users: &mut Vec<User<R::Stream>>,
    restarted: bool,
    input: &mut I,
    out: &mut O,
) -> Result<End, ScriptFault>
where
    R: Net + AllocGlobal,
    D: Device,
    I: BufRead,
    O: Write,
{
    if restarted {
        writeln!(out, "run {}", link::restart_count(server))?;
    }
    run_lines(rt, server, users, input, out)
}

/// The connections ended with the server. What the users know stays.
fn disconnect<S: Read + Write + Drop>(users: &mut Vec<User<S>>) {
    for user in users.iter_mut() {
        user.caller.disconnect();
    }
}

fn run_lines<R, D, I, O>(
    rt: &R,
    server: &mut Server<D>,
    users: &mut Vec<User<R::Stream>>,
    input: &mut I,
    out: &mut O,
) -> Result<End, ScriptFault>
where
    R: Net + AllocGlobal,
    D: Device,
    I: BufRead,
    O: Write,
{
    for _ in 0..u64::MAX {
        let Some(text) = next_line(rt.alloc(), input)? else {
            break;
        };
        if run_line(rt, server, users, &text, out)? {
            return Ok(End::Restart);
        }
    }
    Ok(End::Script)
}

/// Reads a line with its end; None if the input has no more.
fn next_line<I: BufRead>(alloc: Global, input: &mut I) -> Result<Option<String>, ScriptFault> {
    let mut text = String::new(alloc);
    match input.read_line(&mut text) {
        Ok(0) => Ok(None),
        Ok(_) => Ok(Some(text)),
        Err(error) => match error.kind() {
            ErrorKind::InvalidData => Err(ScriptFault::Script),
            _ => Err(error.into()),
        },
    }
}

/// Runs a line. Returns whether the server is to be mounted again.
fn run_line<R, D, O>(
    rt: &R,
    server: &mut Server<D>,
    users: &mut Vec<User<R::Stream>>,
    text: &str,
    out: &mut O,
) -> Result<bool, ScriptFault>
where
    R: Net + AllocGlobal,
    D: Device,
    O: Write,
{
    match read_line(rt.alloc(), text.trim_end_matches('\n'))? {
        Some(line) => obey(rt, server, users, &line, out),
        None => Err(ScriptFault::Script),
    }
}

/// Does what a line asks for. Returns whether the server is to be mounted again.
fn obey<R, D, O>(
    rt: &R,
    server: &mut Server<D>,
    users: &mut Vec<User<R::Stream>>,
    line: &Line<'_>,
    out: &mut O,
) -> Result<bool, ScriptFault>
where
    R: Net + AllocGlobal,
    D: Device,
    O: Write,
{
    match line {
        Line::Nothing => Ok(false),
        Line::Restart => Ok(true),
        Line::Client { name, action } => {
            act(rt, server, users, name, action, out)?;
            Ok(false)
        }
    }
}

/// Does what a line asks of the user of this name.
fn act<R, D, O>(
    rt: &R,
    server: &mut Server<D>,
    users: &mut Vec<User<R::Stream>>,
    name: &str,
    action: &Action<'_>,
    out: &mut O,
) -> Result<(), ScriptFault>
where
    R: Net + AllocGlobal,
    D: Device,
    O: Write,
{
    if let Action::Hello { uid, gid } = action {
        return begin(rt, server, users, name, (*uid, *gid), out);
    }
    match users.iter_mut().find(|user| user.name.as_str() == name) {
        Some(user) => act_as(rt, server, user, action, out),
        None => Err(ScriptFault::Script),
    }
}

/// Makes a user of this name.
fn begin<R, D, O>(
    rt: &R,
    server: &mut Server<D>,
    users: &mut Vec<User<R::Stream>>,
    name: &str,
    ids: (u32, u32),
    out: &mut O,
) -> Result<(), ScriptFault>
where
    R: Net + AllocGlobal,
    D: Device,
    O: Write,
{
    forget(server, users, name)?;
    users.push(greet(rt, server, name, ids, out)?)?;
    Ok(())
}

/// A new user, which connects and makes itself known.
fn greet<R, D, O>(
    rt: &R,
    server: &mut Server<D>,
    name: &str,
    ids: (u32, u32),
    out: &mut O,
) -> Result<User<R::Stream>, ScriptFault>
where
    R: Net + AllocGlobal,
    D: Device,
    O: Write,
{
    let connection = connect(rt, server)?;
    let (uid, gid) = ids;
    let mut caller = Caller::new(rt.alloc(), uid, gid, connection)?;
    let known = hello(server, &mut caller, name, out)?;
    User::new(rt.alloc(), name, known, caller)
}

/// Does what a line asks of this user, which is there.
fn act_as<R, D, O>(
    rt: &R,
    server: &mut Server<D>,
    user: &mut User<R::Stream>,
    action: &Action<'_>,
    out: &mut O,
) -> Result<(), ScriptFault>
where
    R: Net + AllocGlobal,
    D: Device,
    O: Write,
{
    match action {
        Action::Hello { .. } => Ok(()),
        Action::Session { persistent } => session(rt.alloc(), server, user, *persistent, out),
        Action::Call(operations) => call(rt.alloc(), server, user, operations),
        Action::Turn => turn(server, user, out),
        Action::Take => take(server, user, out),
        Action::Retry => retry(rt, server, user),
    }
}

/// A name's new user takes the place of its old one, whose connection is hung up.
fn forget<S, D>(
    server: &mut Server<D>,
    users: &mut Vec<User<S>>,
    name: &str,
) -> Result<(), ScriptFault>
where
    S: Read + Write + Drop,
    D: Device,
{
    match users.iter().position(|user| user.name.as_str() == name) {
        Some(place) => users.remove(place).caller.hang_up(server),
        None => Ok(()),
    }
}
