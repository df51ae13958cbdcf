//! What a run prints.
ghost use Rattle.std.specs.Prelude.{◌≡◌, ◌++◌, IfOk, OnOk, codes, decimal, string_bytes};
ghost use Rattle.mg_bson.specs.Tree.{document};
ghost use Rattle.mg_bson.specs.Raw.{fields};
ghost use Rattle.mg_json.specs.Json.{value_text};
ghost use Rattle.mg_script.specs.Text.{coded, file_text, error_text, bytes_text, count_text, ended_text, get_line, line, token_text, token_line, closed_text, closed_line, opened_text, answer_text, answer_line, answers_text, outcome_text, open_line, commands_of, text_of};

use crate::outcome::{Answer, Ended, Outcome, Run};
use mg_bson::{RawDocumentBuf, to_document};
use mg_json::{document_text, value_text};
use mg_link::{Error, ErrorKind, GridFsErrorKind, Log};
use mg_options::ResumeToken;
use std::alloc::{AllocError, Global};

// ---- parts of lines

fn coded(alloc: Global, word: &str, code: i32) -> Result<String, AllocError>
    ensures { IfOk result (λ s. string_bytes s ≡ coded word.now code) }
{
    format!(in alloc; "{word} {code}")
}

fn file_text(alloc: Global, kind: &GridFsErrorKind) -> Result<String, AllocError>
    ensures { IfOk result (λ s. string_bytes s ≡ file_text kind.now) }
{
    match kind {
        GridFsErrorKind::FileNotFound(_) => String::from_str(alloc, "E11a"),
        GridFsErrorKind::RevisionNotFound(revision) => coded(alloc, "E11b", *revision),
        GridFsErrorKind::MissingChunk(n) => format!(in alloc; "E11c {n}"),
        GridFsErrorKind::WrongSizeChunk { n, .. } => format!(in alloc; "E11d {n}"),
        GridFsErrorKind::UploadStreamClosed => String::from_str(alloc, "E11e"),
        GridFsErrorKind::WriteInProgress => String::from_str(alloc, "E11f"),
        GridFsErrorKind::AbortError { .. } => String::from_str(alloc, "E11g"),
    }
}

/// The word of an error, and the code where a server gave one.
fn error_text(alloc: Global, error: &Error) -> Result<String, AllocError>
    ensures { IfOk result (λ s. string_bytes s ≡ error_text error.now) }
{
    match &error.kind {
        ErrorKind::OutOfMemory => String::from_str(alloc, "E1"),
        ErrorKind::Io => String::from_str(alloc, "E2"),
        ErrorKind::Command(refusal) => coded(alloc, "E3", refusal.code),
        ErrorKind::Write(failure) => coded(alloc, "E4", failure.code),
        ErrorKind::InsertMany(failures) => match failures.as_slice() {
            [] => String::from_str(alloc, "E5"),
            [first, ..] => coded(alloc, "E5", first.code),
        },
        ErrorKind::InvalidResponse(_) => String::from_str(alloc, "E6"),
        ErrorKind::BsonDeserialization => String::from_str(alloc, "E7"),
        ErrorKind::BsonSerialization => String::from_str(alloc, "E8"),
        ErrorKind::MissingResumeToken => String::from_str(alloc, "E9"),
        ErrorKind::InvalidArgument(_) => String::from_str(alloc, "E10"),
        ErrorKind::GridFs(kind) => file_text(alloc, kind),
        ErrorKind::FileTooLarge => String::from_str(alloc, "E12"),
        ErrorKind::EmptyBatches => String::from_str(alloc, "E13"),
        ErrorKind::TooManyDocuments => String::from_str(alloc, "E14"),
        ErrorKind::NoSuchJob(_) => String::from_str(alloc, "E15"),
        ErrorKind::ReceiptMismatch(_) => String::from_str(alloc, "E16"),
    }
}

fn event_text(alloc: Global, event: &RawDocumentBuf) -> Result<String, AllocError>
    ensures { IfOk result (λ s. string_bytes s ≡ value_text (document (fields event.now))) }
{
    match to_document(alloc, event.as_raw()) {
        Ok(document) => document_text(alloc, &document),
        Err(_) => Err(AllocError),
    }
}

fn token_text(alloc: Global, token: &Option<ResumeToken>) -> Result<String, AllocError>
    ensures { IfOk result (λ s. string_bytes s ≡ token_text token.now) }
{
    match token {
        None => String::from_str(alloc, "none"),
        Some(token) => match token.to_value() {
            Ok(value) => value_text(alloc, &value),
            Err(_) => Err(AllocError),
        },
    }
}

// ---- the lines of a job

fn count_text(alloc: Global, ended: &Ended<u64>) -> Result<String, AllocError>
    ensures { IfOk result (λ s. string_bytes s ≡ count_text ended.now) }
{
    match ended {
        Ended::Unfinished => String::from_str(alloc, "unfinished"),
        Ended::Gave(n) => format!(in alloc; "ok {n}"),
        Ended::Failed(error) => error_text(alloc, error),
    }
}

/// The line of a job that gives a number.
fn count_line(
    alloc: Global,
    out: &mut String,
    job: usize,
    word: &str,
    ended: &Ended<u64>,
) -> Result<(), AllocError>
    ensures { OnOk result
        (string_bytes out.new ≡ string_bytes out.old ++ line (codes "job " ++ decimal job ++ codes " " ++ word.now ++ codes " " ++ count_text ended.now)) }
{
    let count = count_text(alloc, ended)?;
    writeln!(out, "job {job} {word} {count}")
}

fn ended_text(alloc: Global, ended: &Ended<()>) -> Result<String, AllocError>
    ensures { IfOk result (λ s. string_bytes s ≡ ended_text ended.now) }
{
    match ended {
        Ended::Unfinished => String::from_str(alloc, "unfinished"),
        Ended::Gave(_) => String::from_str(alloc, "ok"),
        Ended::Failed(error) => error_text(alloc, error),
    }
}

fn bytes_text(alloc: Global, bytes: &[u8]) -> Result<String, AllocError>
    ensures { IfOk result (λ s. string_bytes s ≡ bytes_text bytes.now) }
{
    match bytes {
        [] => String::from_str(alloc, "-"),
        [_, ..] => hex::encode(alloc, bytes),
    }
}

fn get_line(
    alloc: Global,
    out: &mut String,
    job: usize,
    bytes: &[u8],
    ended: &Ended<()>,
) -> Result<(), AllocError>
    ensures { OnOk result
        (string_bytes out.new ≡ string_bytes out.old ++ get_line job bytes.now ended.now) }
{
    let ended = ended_text(alloc, ended)?;
    let bytes = bytes_text(alloc, bytes)?;
    writeln!(out, "job {job} get {ended} {bytes}")
}

fn answer_text(alloc: Global, answer: &Answer) -> Result<String, AllocError>
    ensures { IfOk result (λ s. string_bytes s ≡ answer_text answer.now) }
{
    match answer {
        Answer::Event(event) => {
            let event = event_text(alloc, event)?;
            format!(in alloc; " event {event}")
        }
        Answer::Nothing => String::from_str(alloc, " nothing"),
        Answer::Failed(error) => {
            let error = error_text(alloc, error)?;
            format!(in alloc; " {error}")
        }
    }
}

fn answer_line(
    alloc: Global,
    out: &mut String,
    job: usize,
    call: usize,
    answer: &Answer,
) -> Result<(), AllocError>
    ensures { OnOk result
        (string_bytes out.new ≡ string_bytes out.old ++ answer_line job call answer.now) }
{
    let answer = answer_text(alloc, answer)?;
    writeln!(out, "job {job} call {call}{answer}")
}

fn answer_lines(
    alloc: Global,
    out: &mut String,
    job: usize,
    answers: &[Answer],
) -> Result<(), AllocError>
    ensures { OnOk result
        (string_bytes out.new ≡ string_bytes out.old ++ answers_text job 0 answers.now) }
{
    for (call, answer) in answers.iter().enumerate() {
        answer_line(alloc, out, job, call, answer)?;
    }
    Ok(())
}

fn token_line(
    alloc: Global,
    out: &mut String,
    job: usize,
    token: &Option<ResumeToken>,
    alive: bool,
) -> Result<(), AllocError>
    ensures { OnOk result
        (string_bytes out.new ≡ string_bytes out.old ++ token_line job token.now alive) }
{
    let token = token_text(alloc, token)?;
    let alive = if alive { "yes" } else { "no" };
    writeln!(out, "job {job} token {token} alive {alive}")
}

fn closed_text(alloc: Global, closed: &Ended<()>) -> Result<String, AllocError>
    ensures { IfOk result (λ s. string_bytes s ≡ closed_text closed.now) }
{
    match closed {
        Ended::Unfinished => String::from_str(alloc, " follow unfinished"),
        Ended::Gave(_) => String::from_str(alloc, " follow done"),
        Ended::Failed(error) => {
            let error = error_text(alloc, error)?;
            format!(in alloc; " follow close failed {error}")
        }
    }
}

fn closed_line(
    alloc: Global,
    out: &mut String,
    job: usize,
    closed: &Ended<()>,
) -> Result<(), AllocError>
    ensures { OnOk result
        (string_bytes out.new ≡ string_bytes out.old ++ closed_line job closed.now) }
{
    let closed = closed_text(alloc, closed)?;
    writeln!(out, "job {job}{closed}")
}

/// The lines of a follow whose stream was opened.
fn opened_lines(
    alloc: Global,
    out: &mut String,
    job: usize,
    answers: &[Answer],
    token: &Option<ResumeToken>,
    alive: bool,
    closed: &Ended<()>,
) -> Result<(), AllocError>
    ensures { OnOk result
        (string_bytes out.new ≡ string_bytes out.old ++ opened_text job answers.now token.now alive closed.now) }
{
    writeln!(out, "job {job} follow opened")?;
    answer_lines(alloc, out, job, answers)?;
    token_line(alloc, out, job, token, alive)?;
    closed_line(alloc, out, job, closed)
}

fn outcome_lines(
    alloc: Global,
    out: &mut String,
    job: usize,
    outcome: &Outcome,
) -> Result<(), AllocError>
    ensures { OnOk result
        (string_bytes out.new ≡ string_bytes out.old ++ outcome_text job outcome.now) }
{
    match outcome {
        Outcome::Insert(ended) => count_line(alloc, out, job, "insert", ended),
        Outcome::Put(ended) => count_line(alloc, out, job, "put", ended),
        Outcome::Get { bytes, ended } => get_line(alloc, out, job, bytes.as_slice(), ended),
        Outcome::Follow {
            opened,
            answers,
            token,
            alive,
            closed,
        } => match opened {
            Ended::Unfinished => writeln!(out, "job {job} follow unopened"),
            Ended::Failed(error) => {
                let error = error_text(alloc, error)?;
                writeln!(out, "job {job} follow failed {error}")
            }
            Ended::Gave(_) => {
                opened_lines(alloc, out, job, answers.as_slice(), token, *alive, closed)
            }
        },
    }
}

// ---- the whole

fn open_line(out: &mut String, ids: &[i64]) -> Result<(), AllocError>
    ensures { OnOk result (string_bytes out.new ≡ string_bytes out.old ++ open_line ids.now) }
{
    write!(out, "open")?;
    if ids.len() == 0 {
        return writeln!(out, " none");
    }
    for id in ids {
        write!(out, " {id}")?;
    }
    writeln!(out, "")
}

/// How many commands were started. A number past 64 bits counts as want of memory.
#[tactic(auto, unfolding(crate::specs::Text::commands_of))]
fn commands_of(logs: &[Log]) -> Result<u64, AllocError>
    ensures { IfOk result (λ n. n ≡ commands_of logs.now) }
{
    let mut total: u64 = 0;
    for log in logs {
        match total.checked_add(log.len() as u64) {
            Some(sum) => total = sum,
            None => return Err(AllocError),
        }
    }
    Ok(total)
}

/// The text that a run prints.
pub fn text_of(alloc: Global, run: &Run) -> Result<String, AllocError>
    ensures { IfOk result (λ s. string_bytes s ≡ text_of run.now) }
{
    let mut out = String::new(alloc);
    for (job, outcome) in run.outcomes.iter().enumerate() {
        outcome_lines(alloc, &mut out, job, outcome)?;
    }
    let Ok(open) = run.store.open_cursors() else {
        return Err(AllocError);
    };
    open_line(&mut out, open.as_slice())?;
    let commands = commands_of(run.logs.as_slice())?;
    writeln!(out, "commands {commands}")?;
    Ok(out)
}
