//! A run of the program: the files, one after the other, and a line for each row and case.

use crate::host::Mounted;
use crate::hub_loop::HubLoop;
use crate::nfs41::Nfs41;
use anyhow::{Result, anyhow, ensure};
use std::fs;
use std::rt::Files;
use test_rows::{
    Case, Differs, Patience, Place, Row, Sheet, Tally, crash, play_case, play_row, read_cases,
};

/// How the name of a file of cases ends. Every other file has rows.
const CASES: &str = ".cases";

/// The places at which rows are played, and how a line says so.
const PLACES: [(Place, &str); 3] = [
    (Place::Server, ""),
    (Place::Sockets, ", over sockets"),
    (Place::Shared, ", with shared flushes"),
];

/// Plays the files, whose rows may name the records of the file `shared`, and prints a line for
/// each row and case. Returns whether all went as written.
pub fn run(rt: &HostRuntime, shared: &str, files: &[String]) -> Result<bool> {
    let records = read_text(rt, shared)?;
    let mut as_written = true;
    for file in files {
        let text = read_text(rt, file)?;
        let went = if file.ends_with(CASES) {
            run_cases(rt, file, &text)?
        } else {
            play_rows(
                rt,
                file,
                read_rows(rt, (shared, &records), (file, &text))?.rows(),
            )?
        };
        if !went {
            as_written = false;
        }
    }
    Ok(as_written)
}

fn read_text<R: Files + AllocGlobal>(rt: &R, file: &str) -> Result<String> {
    match fs::read_to_string(rt, file) {
        Ok(text) => Ok(text),
        Err(error) => Err(anyhow!("{file}: {error}")),
    }
}

/// Plays the rows of one file, each on the server itself, with one more try of each call that is
/// refused because memory ran out. A line is printed before each. Returns whether all went as
/// written.
pub fn run_again(rt: &HostRuntime, shared: &str, file: &str) -> Result<bool> {
    let (records, text) = (read_text(rt, shared)?, read_text(rt, file)?);
    let sheet = read_rows(rt, (shared, &records), (file, &text))?;
    let mut as_written = true;
    for row in sheet.rows() {
        println!(rt; "{file}: {}", row.name)?;
        let outcome = play_row::<Mounted, HubLoop>(rt, row, Place::Server, Patience::Once);
        as_written &= print_again(rt, file, row.name, outcome)?;
    }
    Ok(as_written)
}

/// The rows of a file, once the whole file has a form. Each file is its name and its text.
fn read_rows<'a>(
    rt: &HostRuntime,
    (shared, records): (&str, &'a str),
    (file, text): (&str, &'a str),
) -> Result<Sheet<'a>> {
    let mut sheet = Sheet::new(rt.alloc());
    if let Err(misread) = sheet.read(rt.alloc(), records) {
        return Err(anyhow!("{shared}:{misread}"));
    }
    ensure!(
        sheet.rows().is_empty(),
        "{shared}: a row among the shared records"
    );
    match sheet.read(rt.alloc(), text) {
        Ok(()) => Ok(sheet),
        Err(misread) => Err(anyhow!("{file}:{misread}")),
    }
}

fn play_rows(rt: &HostRuntime, file: &str, rows: &[Row<'_>]) -> Result<bool> {
    let mut as_written = true;
    for row in rows {
        if !play_anywhere(rt, file, row)? {
            as_written = false;
        }
    }
    Ok(as_written)
}

/// Plays a row wherever it can be played.
fn play_anywhere(rt: &HostRuntime, file: &str, row: &Row<'_>) -> Result<bool> {
    let mut as_written = true;
    for (place, named) in PLACES {
        if row.is_of(place) {
            let outcome = play_row::<Mounted, HubLoop>(rt, row, place, Patience::None);
            as_written &= print_outcome(rt, file, row.name, named, outcome.map(|_| ()))?;
        }
    }
    if row.has_trials() {
        as_written &= print_crashes(rt, file, row, crash::<Mounted>(rt.alloc(), row))?;
    }
    Ok(as_written)
}

/// Plays the cases of a file once the whole file has a form.
fn run_cases(rt: &HostRuntime, file: &str, text: &str) -> Result<bool> {
    match read_cases(rt.alloc(), text) {
        Ok(cases) => play_cases(rt, file, &cases),
        Err(misread) => Err(anyhow!("{file}:{misread}")),
    }
}

fn play_cases(rt: &HostRuntime, file: &str, cases: &[Case<'_>]) -> Result<bool> {
    let mut as_written = true;
    for case in cases {
        if !print_outcome(rt, file, case.name, "", play_case::<Nfs41>(rt, case))? {
            as_written = false;
        }
    }
    Ok(as_written)
}

/// Prints how a row or a case went, and at which place it was played. Returns whether it went as
/// written.
fn print_outcome<R: Print>(
    rt: &R,
    file: &str,
    name: &str,
    place: &str,
    outcome: std::result::Result<(), Differs>,
) -> Result<bool> {
    match outcome {
        Ok(()) => {
            println!(rt; "{file}: {name}{place}: ok")?;
            Ok(true)
        }
        Err(differs) => {
            println!(rt; "{file}: {name}{place}: {differs}")?;
            Ok(false)
        }
    }
}

/// Prints what was tried of a row, and how many of its states were found.
fn print_crashes<R: Print>(
    rt: &R,
    file: &str,
    row: &Row<'_>,
    outcome: std::result::Result<Tally, Differs>,
) -> Result<bool> {
    match outcome {
        Ok(tally) => {
            println!(rt; "{file}: {}, {tally} of {}: ok", row.name, row.states())?;
            Ok(true)
        }
        Err(differs) => print_outcome(rt, file, row.name, ", crashed", Err(differs)),
    }
}

/// Prints how a row went, and how many calls were repeated. Returns whether it went as written.
fn print_again<R: Print>(
    rt: &R,
    file: &str,
    name: &str,
    outcome: std::result::Result<u32, Differs>,
) -> Result<bool> {
    match outcome {
        Ok(again) => {
            println!(rt; "{file}: {name}: ok, {again} again")?;
            Ok(true)
        }
        Err(differs) => print_outcome(rt, file, name, "", Err(differs)),
    }
}
