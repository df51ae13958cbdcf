//! Where the cached token of a change stream lies.
ghost use Rattle.std.specs.Prelude.{◌≡◌};
ghost use Rattle.mg_steps.specs.Token.{place_behind, place_empty};

/// Where the cached token of a change stream lies. It is copied into the stream only before the batch in hand goes.
#[derive(Clone, Copy)]
pub enum TokenPlace {
    /// In what the stream resumes by.
    Saved,
    /// In the event that was given last.
    Event,
    /// Behind the newest batch.
    Batch,
}

/// Where it lies behind an event that was given: behind the batch, where that was its last one and the batch has a token, and else in the
/// event.
pub fn place_behind(is_last: bool, batch_has_token: bool) -> TokenPlace
    ensures { result ≡ place_behind is_last batch_has_token }
{
    if is_last && batch_has_token {
        TokenPlace::Batch
    } else {
        TokenPlace::Event
    }
}

/// Where it lies behind an empty batch: behind the batch, where that has a token, and else where it lay.
pub fn place_empty(place: TokenPlace, batch_has_token: bool) -> TokenPlace
    ensures { result ≡ place_empty place batch_has_token }
{
    if batch_has_token {
        TokenPlace::Batch
    } else {
        place
    }
}
