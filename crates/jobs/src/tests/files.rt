ghost use Rattle.std.specs.Prelude.{◌≡◌, IfOk, None};
ghost use Rattle.mg_link.specs.Acts.{IsOut};
ghost use Rattle.mg_link.specs.Places.{out_at};
ghost use Rattle.mg_gridfs.specs.Uploads.{upload_ticket};
ghost use Rattle.mg_gridfs.specs.UploadView.{IsUpload, upload_of};

use super::scripted::{REPLIES, error_word, link_of, tell_commands};
use super::{number_of, owned, small, tell, written};
use layers::parted;
use mg_bson::{Bson, DateTime};
use mg_gridfs::{DatabaseDefaults, GridFsBucket, GridFsUploadStream, Step2, WritePoll};
use mg_link::{CountedIds, Error, ScriptLink};
use mg_options::GridFsBucketOptions;
use mg_records::{FilesCollectionDocument, last_number};
use std::alloc::Global;
use std::process::Abort;

/// Each line is a question about the chunks of a file, its numbers, and the answer: how many chunks of a size hold so many
/// bytes, how many bytes the chunk of a number has, and which number the last of some chunks has.
pub(super) const CHUNKS: &str = "count 10 4~3
count 8 4~2
count 0 4~0
count 1 4~1
count 4 0~invalid response: chunk size 0
count 0 0~invalid response: chunk size 0
count 4294967295 1~4294967295
count 4294967296 1~invalid response: too many chunks
count 18446744073709551615 1~invalid response: too many chunks
count 18446744073709551615 4294967295~invalid response: too many chunks
length 10 4 0~4
length 10 4 1~4
length 10 4 2~2
length 10 4 3~4
length 8 4 1~4
length 0 4 0~4
length 4 0 0~invalid response: chunk size 0
length 18446744073709551615 1 0~invalid response: too many chunks
last 0 1~0
last 2147483647 1~2147483647
last 2147483647 2~the file has too many chunks
last 4294967295 4294967295~the file has too many chunks";

fn answer_of(question: &str) -> Result<u32, Error> {
    let (about, numbers) = parted(question);
    let (first, rest) = parted(numbers);
    let (size, number) = parted(rest);
    let (length, size) = (number_of(first), small(size));
    match about {
        "count" => FilesCollectionDocument::n_from_vals(length, size),
        "length" => {
            FilesCollectionDocument::expected_chunk_length_from_vals(length, size, small(number))
        }
        _ => last_number(small(first), size.max(1)),
    }
}

/// The answer to a question about chunks.
pub(super) fn numbers(rt: &(impl Abort + AllocGlobal), question: &str) -> String {
    match answer_of(question) {
        Ok(answer) => written(rt, format!(in rt.alloc(); "{answer}")),
        Err(error) => written(rt, format!(in rt.alloc(); "{error}")),
    }
}

// ---- uploads

/// The bucket `fs` of the database `db`.
pub(super) fn bucket(alloc: Global) -> Result<GridFsBucket, Error> {
    let db = DatabaseDefaults {
        name: String::from_str(alloc, "db")?,
        read_concern: None,
        write_concern: None,
        selection_criteria: None,
    };
    GridFsBucket::new(alloc, db, GridFsBucketOptions::builder())
}

// An upload of a file with the id 7 and the name `f`, in chunks of this size.
fn opened(
    alloc: Global,
    ids: &mut CountedIds,
    size: Option<u32>,
) -> Result<GridFsUploadStream, Error>
    ensures sound { IfOk result (λ s. IsUpload s) }
    ensures out { IfOk result (λ s. upload_ticket (upload_of s) ≡ None) }
{
    let opening = bucket(alloc)?.open_upload_stream("f").id(Bson::Int32(7));
    match size {
        Some(size) => opening.chunk_size_bytes(size).open(ids),
        None => opening.open(ids),
    }
}

fn write_word(rt: &(impl Abort + AllocGlobal), poll: WritePoll) -> String {
    match poll {
        WritePoll::Pending => owned(rt, "/pending"),
        WritePoll::Wrote(n) => written(rt, format!(in rt.alloc(); "/wrote {n}")),
        WritePoll::Failed(error) => error_word(rt, &error),
    }
}

fn step2_word(rt: &(impl Abort + AllocGlobal), poll: Step2) -> String {
    match poll {
        Step2::Pending => owned(rt, "/pending"),
        Step2::Done => owned(rt, "/done"),
        Step2::Failed(error) => error_word(rt, &error),
    }
}

fn flush_word(rt: &(impl Abort + AllocGlobal), upload: &GridFsUploadStream) -> String {
    match upload.poll_flush() {
        Ok(()) => owned(rt, "/open"),
        Err(error) => error_word(rt, &error),
    }
}

// One poll.
fn step_word(
    rt: &(impl Abort + AllocGlobal),
    upload: &mut GridFsUploadStream,
    link: &mut ScriptLink,
    ids: &mut CountedIds,
    step: u8,
) -> String
    requires out { IsOut (out_at link.old.calls) (upload_ticket (upload_of upload.old)) }
    requires sound { IsUpload upload.old }
    ensures out { IsOut (out_at link.new.calls) (upload_ticket (upload_of upload.new)) }
    ensures sound { IsUpload upload.new }
{
    let piece = match step {
        b'w' => "abcde",
        b's' => "f",
        b'z' =>
            "zzzzzzzzzzzzzzzzzzzzzzzzzzzzzzzzzzzzzzzzzzzzzzzzzzzzzzzzzzzzzzzzzzzzzzzzzzzzzzzzzzzzzzzzzzzzzzzzzzzz",
        b'c' => return step2_word(rt, upload.poll_close(link, ids, DateTime { millis: 9 })),
        b'a' => return step2_word(rt, upload.poll_abort(link)),
        _ => return flush_word(rt, upload),
    };
    write_word(rt, upload.poll_write(link, ids, piece.as_bytes()))
}

// Takes the steps: what was answered.
fn steps_words(
    rt: &(impl Abort + AllocGlobal),
    upload: &mut GridFsUploadStream,
    link: &mut ScriptLink,
    ids: &mut CountedIds,
    steps: &str,
) -> String
    requires out { IsOut (out_at link.old.calls) (upload_ticket (upload_of upload.old)) }
    requires sound { IsUpload upload.old }
{
    let mut seen = String::new(rt.alloc());
    'steps: for step in steps.as_bytes() {
        tell(rt, &mut seen, step_word(rt, upload, link, ids, *step));
    }
    seen
}

/// An upload in chunks of 4 bytes, or behind a `-` of a size that nobody says, takes steps: what was answered, and which commands were
/// sent.
pub(super) fn uploaded(rt: &(impl Abort + AllocGlobal), given: &str) -> String {
    let (script, steps) = given.split_once('|').unwrap_or((given, ""));
    let (size, steps) = match steps.strip_prefix("-") {
        Some(rest) => (None, rest),
        None => (Some(4u32), steps),
    };
    let mut link = link_of(rt, REPLIES, script, 0);
    let mut ids = CountedIds::new([0, 0, 0, 0]);
    let mut told = match opened(rt.alloc(), &mut ids, size) {
        Ok(mut upload) => steps_words(rt, &mut upload, &mut link, &mut ids, steps),
        Err(error) => error_word(rt, &error),
    };
    tell_commands(rt, &mut told, &link);
    told
}

/// Each line is how the commands of an upload are answered, its steps, and what comes of them: a write of five bytes, of one or of
/// a hundred, a close, an abort, or a flush; some close while a write goes on.
pub(super) const UPLOADS: &str =
    r#"1|cwfca~/done/the upload is closed/the upload is closed/the upload is closed/the upload is closed/insert "fs.files"
r 1 1 1|wfc~/wrote 5/open/done/find "fs.files"/insert "fs.chunks"/insert "fs.chunks"/insert "fs.files"
r 1+ 1 1|wsc~/pending/wrote 5/done/find "fs.files"/insert "fs.chunks"/insert "fs.chunks"/insert "fs.files"
r 1 1+ 1|wcwfc~/wrote 5/pending/the upload is closed/open/done/find "fs.files"/insert "fs.chunks"/insert "fs.chunks"/insert "fs.files"
l l|wf~/the link failed/the upload is closed/find "fs.files"/find "fs.files"
r l 1|wf~/the link failed/the upload is closed/find "fs.files"/insert "fs.chunks"/delete "fs.chunks"
r d 1|wf~/insert failed, with 1 failures/the upload is closed/find "fs.files"/insert "fs.chunks"/delete "fs.chunks"
r 1 1+|wawfa~/wrote 5/pending/the upload is closed/open/done/find "fs.files"/insert "fs.chunks"/delete "fs.chunks"
r 1+ l|wa~/pending/the upload was aborted, and its chunks could not be removed (the link failed)/find "fs.files"/insert "fs.chunks"/delete "fs.chunks"
r 1+ 1|wcwfa~/pending/a write is going on/the upload is closed/the upload is closed/the upload is closed/find "fs.files"/insert "fs.chunks"/delete "fs.chunks"
r 1+ l|wcwfa~/pending/the upload failed (a write is going on), and its chunks could not be removed (the link failed)/the upload is closed/the upload is closed/the upload is closed/find "fs.files"/insert "fs.chunks"/delete "fs.chunks"
r l+ 1|wc~/pending/a write is going on/find "fs.files"/insert "fs.chunks"/delete "fs.chunks"
r+ 1|wc~/pending/a write is going on/find "fs.files"/delete "fs.chunks"
r 1+ 1+|wcwfc~/pending/pending/the upload is closed/open/a write is going on/find "fs.files"/insert "fs.chunks"/delete "fs.chunks"
1 1|-zc~/wrote 100/done/insert "fs.chunks"/insert "fs.files""#;
