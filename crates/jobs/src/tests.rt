//! What a proof cannot see of the program, and of cursors, streams, files and jobs, by rows: each gives something and says
//! what is found of it.

mod answered;
mod cursors;
mod downloads;
mod exec;
mod files;
mod grammar;
mod runs;
mod scripted;
mod streams;
mod watches;

use layers::repeated;
use std::alloc::AllocError;
use std::process::Abort;

/// A text that was made.
fn written(rt: &impl Abort, text: Result<String, AllocError>) -> String {
    text.expect(rt, "memory")
}

/// A text that its caller owns.
fn owned(rt: &(impl Abort + AllocGlobal), text: &str) -> String {
    written(rt, String::from_str(rt.alloc(), text))
}

/// Writes a word behind what was told.
fn tell(rt: &impl Abort, told: &mut String, word: String) {
    told.push_str(word.as_str()).expect(rt, "memory");
}

/// The number that digits stand for, or 0.
fn number_of(digits: &str) -> u64 {
    digits.parse::<u64>().unwrap_or(0)
}

/// The number of 32 bits that digits stand for, or 0.
fn small(digits: &str) -> u32 {
    digits.parse::<u32>().unwrap_or(0)
}

// The text in which `ab` stands three times for each `<3*ab>`. No `<` stands for itself.
fn expanded(rt: &(impl Abort + AllocGlobal), text: &str) -> String {
    let mut parts = text.split('<');
    let mut whole = owned(rt, parts.next().unwrap_or(""));
    for part in parts {
        let (counted, rest) = part.split_once('>').expect(rt, "a > behind each <");
        let (times, unit) = counted.split_once('*').expect(rt, "a * behind each <");
        let text = repeated(rt.alloc(), "", unit, small(times), rest);
        tell(rt, &mut whole, written(rt, text));
    }
    whole
}

// What is found of what a row gives, where each reply pends so often.
fn found(rt: &(impl Abort + AllocGlobal), kind: &str, given: &str, pend: u32) -> String {
    match kind {
        "answered" => answered::ran(rt, given, pend),
        "call" => cursors::called(rt, given),
        "chunks" => files::numbers(rt, given),
        "cursor" => cursors::ran(rt, given, pend),
        "find" => cursors::found(rt, given),
        "handed" => streams::handed(rt, given),
        "opened" => watches::opened(rt, given),
        "ping" => exec::pinged(rt, given, pend),
        "place" => grammar::place(rt, given),
        "read" => downloads::read(rt, given),
        "refusal" => exec::refused(rt, given),
        "run" => runs::ran(rt, given),
        "session" => watches::followed(rt, given),
        "stream" => streams::ran(rt, given, pend),
        "upload" => files::uploaded(rt, given),
        "value" => grammar::value(rt, given),
        "verdict" => exec::verdict(rt, given),
        _ => owned(rt, "no such kind of row"),
    }
}

// Tells each row of a table of which something else is found than stands behind its `~`, and what.
fn tell_rows(
    rt: &(impl Abort + AllocGlobal),
    told: &mut String,
    kind: &str,
    pend: u32,
    table: &str,
) {
    for row in table.lines() {
        let (given, wanted) = row.split_once('~').unwrap_or((row, ""));
        let found = found(rt, kind, expanded(rt, given).as_str(), pend);
        if found.as_str() != expanded(rt, wanted).as_str() {
            write!(told, "\n{kind} {row}\nbut found, pending {pend}: {found}").expect(rt, "memory");
        }
    }
}

// Fails a test with the rows that were told.
fn are_found(rt: &impl Abort, told: String) {
    assert!(rt; told.is_empty(), "{told}");
}

// A test that fails tells each of its rows of which something else is found, and what. Rows of jobs, cursors and streams that name no
// reply that pends are taken twice: as they stand, and with each reply pending once.

#[test]
fn jobs_over_given_replies(rt: HostRuntime) {
    let mut told = String::new(rt.alloc());
    tell_rows(&rt, &mut told, "answered", 0, answered::ROWS);
    tell_rows(&rt, &mut told, "answered", 1, answered::ROWS);
    tell_rows(&rt, &mut told, "answered", 0, answered::LONG);
    are_found(&rt, told);
}

#[test]
fn jobs_over_a_store(rt: HostRuntime) {
    let mut told = String::new(rt.alloc());
    tell_rows(&rt, &mut told, "run", 0, runs::RUNS);
    tell_rows(&rt, &mut told, "run", 0, runs::FILES);
    tell_rows(&rt, &mut told, "run", 0, downloads::RUNS);
    are_found(&rt, told);
}

#[test]
fn statuses(rt: HostRuntime) {
    let mut told = String::new(rt.alloc());
    tell_rows(&rt, &mut told, "run", 0, runs::STATUSES);
    are_found(&rt, told);
}

#[test]
fn scripts(rt: HostRuntime) {
    let mut told = String::new(rt.alloc());
    tell_rows(&rt, &mut told, "value", 0, grammar::VALUES);
    tell_rows(&rt, &mut told, "place", 0, grammar::SCRIPTS);
    tell_rows(&rt, &mut told, "place", 0, grammar::JOBS);
    tell_rows(&rt, &mut told, "place", 0, grammar::FATES);
    are_found(&rt, told);
}

#[test]
fn commands_and_files(rt: HostRuntime) {
    let mut told = String::new(rt.alloc());
    tell_rows(&rt, &mut told, "ping", 0, exec::PINGS);
    tell_rows(&rt, &mut told, "ping", 2, exec::POLLS);
    tell_rows(&rt, &mut told, "refusal", 0, exec::REFUSALS);
    tell_rows(&rt, &mut told, "verdict", 0, exec::VERDICTS);
    tell_rows(&rt, &mut told, "chunks", 0, files::CHUNKS);
    tell_rows(&rt, &mut told, "upload", 0, files::UPLOADS);
    tell_rows(&rt, &mut told, "read", 0, downloads::READS);
    are_found(&rt, told);
}

#[test]
fn cursors_and_streams(rt: HostRuntime) {
    let mut told = String::new(rt.alloc());
    tell_rows(&rt, &mut told, "cursor", 0, cursors::RUNS);
    tell_rows(&rt, &mut told, "cursor", 1, cursors::RUNS);
    tell_rows(&rt, &mut told, "call", 0, cursors::CALLS);
    tell_rows(&rt, &mut told, "find", 0, cursors::FINDS);
    tell_rows(&rt, &mut told, "stream", 0, streams::RUNS);
    tell_rows(&rt, &mut told, "stream", 1, streams::RUNS);
    tell_rows(&rt, &mut told, "handed", 0, streams::HANDED);
    tell_rows(&rt, &mut told, "opened", 0, watches::OPENED);
    tell_rows(&rt, &mut told, "session", 0, watches::FOLLOWED);
    are_found(&rt, told);
}

#[test]
fn closed_while_pending(rt: HostRuntime) {
    let mut told = String::new(rt.alloc());
    tell_rows(&rt, &mut told, "cursor", 0, cursors::PENDING);
    tell_rows(&rt, &mut told, "stream", 0, streams::PENDING);
    are_found(&rt, told);
}
