//! Where a change stream resumes.
ghost use Rattle.std.specs.Prelude.{◌≡◌, true};
ghost use Rattle.mg_steps.specs.Resuming.{IsResumptionOf};

/// The first wire version at which a server takes a time to start at.
pub const TIMES_FROM: i32 = 7;

/// How the aggregate that resumes a change stream says where it begins.
#[derive(Clone, Copy)]
pub enum Resumption {
    /// By `startAfter`, with the token.
    StartAfter,
    /// By `resumeAfter`, with the token.
    ResumeAfter,
    /// By `startAtOperationTime`.
    AtTime,
    /// As the stream was opened.
    AsOpened,
}

/// What a change stream that resumes knows of its place.
#[derive(Clone, Copy)]
pub struct Standing {
    /// It has a token.
    pub has_token: bool,
    /// It was opened by `startAfter`.
    pub starts_after: bool,
    /// It returned a document.
    pub document_returned: bool,
    /// It saved the time of its opening.
    pub has_time: bool,
}

/// How a change stream that stands so resumes over a link of this wire version.
pub fn resumption_of(standing: Standing, wire: i32) -> Resumption
    ensures { IsResumptionOf standing wire result }
{
    if standing.has_token {
        return behind_token(standing, wire);
    }
    if standing.has_time && wire >= TIMES_FROM {
        return Resumption::AtTime;
    }
    Resumption::AsOpened
}

// The same of one that has a token: `startAfter` is kept until a document was returned, since `resumeAfter` takes no token behind an invalidation.
fn behind_token(standing: Standing, wire: i32) -> Resumption
    requires { standing.has_token ≡ true }
    ensures { IsResumptionOf standing wire result }
{
    if standing.starts_after && !standing.document_returned {
        Resumption::StartAfter
    } else {
        Resumption::ResumeAfter
    }
}
