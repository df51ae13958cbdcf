//! What holds of files, for the proofs of callers.
ghost use Rattle.std.specs.Prelude.{◌<◌, ℕ, ℤ, List};
ghost use Rattle.mg_server.specs.Files.{Bucket};
ghost use Rattle.mg_server.specs.Calls.{Past};
ghost use Rattle.mg_link.specs.Link.{Awaited};
ghost use Rattle.mg_link.specs.Log.{Call};
ghost use Rattle.mg_gridfs.specs.Cursors.{CursorsBegin, CursorsGoOn};
ghost use Rattle.mg_gridfs.specs.DownloadLaws.{AllReceived, CutsAsSized, DownloadReads, DownloadReadsFile, DownloadReadsUntil, DownloadsGoOn};
ghost use Rattle.mg_gridfs.specs.Laws.{CutsAsCounted, CutsJoin, RecordIsRead, RemovalsAreAlone, UploadBegins, UploadStaysWhole, UploadStores, UploadsGoOn, UploadsSettle};
ghost use Rattle.mg_gridfs.specs.Uploads.{ClientUpload};

/// Full chunks are cut off by themselves. So the chunks of a file hang on its bytes alone, and not on the pieces in which they were
/// written.
pub fn cuts_join()
    ensures { CutsJoin }
{}

/// The number of chunks is the length divided by their size, rounded up; of no bytes there is none. Each has its expected length.
pub fn cuts_are_counted()
    ensures { (size : ℕ) (bytes : List ℕ) → 0 < size → CutsAsCounted size bytes }
{}

/// The record that an upload stores is read as that of its file.
pub fn record_is_read()
    ensures { RecordIsRead }
{}

/// An upload that has taken nothing knows that nothing of its file is there.
pub fn upload_begins()
    ensures { UploadBegins }
{}

/// What an upload knows goes on to hold between its polls, and while others call.
pub fn uploads_go_on()
    ensures settled { UploadsSettle }
    ensures others { UploadsGoOn }
{}

/// An upload that has taken nothing owns no cursor, and what it knows of its own goes on to hold while others call.
pub fn cursors_go_on()
    ensures begun { CursorsBegin }
    ensures others { CursorsGoOn }
{}

/// What an upload knows says what the server holds: between two calls the chunks of the bytes taken, up to less than one; and once its
/// record is inserted the whole file, before the reply to that has come and once the close is done.
pub fn upload_stores()
    ensures { (awaited : Awaited) (calls : List Call) (wire : ℤ) (places : List ℕ) (at : Bucket) (u : ClientUpload) (taken : List ℕ) → UploadStores awaited calls wire places at u taken }
{}

/// A file that an upload stored is whole at each position behind the step of its record, up to the upload's next step: while the record is
/// on its way, once the server took its insert, whatever comes of the call; and once the close is done.
pub fn uploads_stay_whole()
    ensures { (awaited : Awaited) (past past' : Past) (at : Bucket) (u : ClientUpload) (taken : List ℕ) → UploadStaysWhole awaited past past' at u taken }
{}

/// The removal of the chunks of a file leaves none of them, and every other document of every collection.
pub fn removals_are_alone()
    ensures { RemovalsAreAlone }
{}

/// Chunks as many and as long as the record of a file says are the cut of their bytes, and these are as many as the record says.
pub fn chunks_are_the_cut()
    ensures cut { CutsAsSized }
    ensures all { AllReceived }
{}

/// What a download knows says what the server held: what was read is the front of the chunks that stood as they were listed, which
/// have the numbers and the lengths that the record says; behind the end it is all of them, and as many bytes as the record says.
pub fn download_reads()
    ensures { DownloadReads }
{}

/// Of a file that was whole as its record was found, and that nobody touches from then on, a download reads the front, and behind its
/// end all of it, whatever room it was read into and however its batches were cut.
pub fn download_reads_the_file()
    ensures { DownloadReadsFile }
{}

/// Of a file that was whole, and that nobody touches until its chunks are listed, a download reads the front, and behind its end all
/// of it, whatever comes of the file then.
pub fn download_reads_until()
    ensures { DownloadReadsUntil }
{}

/// What a download knows goes on to hold while others call.
pub fn downloads_go_on()
    ensures { DownloadsGoOn }
{}
