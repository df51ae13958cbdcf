//! What the calls of a stream give, from the batch in hand.
ghost use Rattle.std.specs.Prelude.{◌≡◌, ◌≢◌, ◌⊎◌, ℕ, List, IfErr, IfOk, OnErr, OnOk, [], Some, false, is_some, option_and_then, true};
ghost use Rattle.mg_bson.specs.Walks.{front_of};
ghost use Rattle.mg_link.specs.Errors.{plain};
ghost use Rattle.mg_link.specs.declared.error.ErrorKind.TheVariants as kind;
ghost use Rattle.mg_cursor.specs.Client.{rests};
ghost use Rattle.mg_cursor.specs.View.{behind_of, client_of, current_of};
ghost use Rattle.mg_change.specs.ClientStreams.{id_in, next_has, no_counts, token_known};
ghost use Rattle.mg_change.specs.Steps.{FindsIn};
ghost use Rattle.mg_change.specs.StreamCalls.{CannotCopy, CopiesEvent, CountsIfOpen, EndsBehind, EndsEmpty, EndsGiven, AnswersEvent, LacksToken, LendsEvent, MayEnd, SeeksOnBehind, SeeksOnGiven, event_ending, kept_behind, try_ending};
ghost use Rattle.mg_change.specs.StreamView.{IsOwnPlace, IsPlaced, IsSavedPlace, KeepsOwn, changes_of, empty_place, is_lent, place_by, returned, token_lying, with_token};

use super::{Changes, Phase};
use crate::counts::Counts;
use crate::event_poll::{EventPoll, Stepped};
use mg_bson::{RawDocument, RawDocumentBuf};
use mg_cursor::{AdvanceResult, BatchBuffer, TryPoll};
use mg_link::{Error, ErrorKind, plain};
use mg_ops::ChangeStreamAggregate;
use mg_options::{ResumeToken, TokenRef};
use mg_steps::{TokenPlace, place_behind, place_empty};
use std::alloc::Global;
use std::mem;

impl Changes {
    // An event is next, or the batch that was just taken is empty; then its token is the stream's.
    pub(super) fn found(&mut self) -> Stepped
        requires saved { IsSavedPlace self.old.token }
        requires rests { (client_of self.old.batches).doing ≡ rests }
        requires follows { self.old.phase ≡ Phase.Follows }
        ensures finds { FindsIn (changes_of self.old) (changes_of self.new) result }
        ensures placed { IsPlaced self.new }
        ensures owned { IsOwnPlace self.new.token }
    {
        if !self.buffer.is_last() {
            return Stepped::Found;
        }
        self.token = self.place_empty();
        Stepped::Gives(TryPoll::Ready(AdvanceResult::Waiting))
    }

    // Where the token lies behind an empty batch: that of the batch, where there is one.
    fn place_empty(&self) -> TokenPlace
        ensures { result ≡ empty_place self.now.token (client_of self.now.batches).token }
    {
        place_empty(self.token, self.batches.token().is_some())
    }

    // Lends the next event.
    pub(super) fn lend(&mut self) -> TryPoll
        requires next { (changes_of self.old).behind ≢ [] }
        requires rests { (client_of self.old.batches).doing ≡ rests }
        requires follows { self.old.phase ≡ Phase.Follows }
        requires placed { IsPlaced self.old }
        ensures lends { LendsEvent (changes_of self.old) (changes_of self.new) result }
        ensures placed { IsPlaced self.new }
    {
        match self.advance() {
            Ok(()) => TryPoll::Ready(AdvanceResult::Advanced(())),
            Err(error) => TryPoll::Failed(error),
        }
    }

    // Copies the next event, before its place moves.
    pub(super) fn copy(&mut self) -> EventPoll
        requires next { (changes_of self.old).behind ≢ [] }
        requires rests { (client_of self.old.batches).doing ≡ rests }
        requires follows { self.old.phase ≡ Phase.Follows }
        requires placed { IsPlaced self.old }
        ensures copies { CopiesEvent (changes_of self.old) (changes_of self.new) result }
        ensures placed { IsPlaced self.new }
        ensures owned { KeepsOwn self.old.token self.new.token }
    {
        match self.copied() {
            Ok(copy) => EventPoll::Ready(Some(copy)),
            Err(error) => EventPoll::Failed(error),
        }
    }

    // The copy of the next event, which is the current one then. Its token is copied beside it, and is the stream's own.
    fn copied(&mut self) -> Result<RawDocumentBuf, Error>
        requires next { (changes_of self.old).behind ≢ [] }
        requires rests { (client_of self.old.batches).doing ≡ rests }
        requires follows { self.old.phase ≡ Phase.Follows }
        requires placed { IsPlaced self.old }
        ensures ok { IfOk result (λ event. AnswersEvent (changes_of self.old) (changes_of self.new) event) }
        ensures err { IfErr result (λ e. LacksToken (changes_of self.old) (changes_of self.new) e ⊎ CannotCopy (changes_of self.old) (changes_of self.new) e) }
        ensures placed { IsPlaced self.new }
        ensures owned { KeepsOwn self.old.token self.new.token }
    {
        if !self.next_has_token() {
            return Err(self.pass_over());
        }
        let copy = self.front_copy()?;
        let token = self.front_token()?;
        self.give();
        self.own(token);
        Ok(copy)
    }

    // A copy of the next event.
    fn front_copy(&self) -> Result<RawDocumentBuf, Error>
        requires { (changes_of self.now).behind ≢ [] }
        ensures ok { IfOk result (λ event. Some event ≡ front_of (changes_of self.now).behind) }
        ensures err { IfErr result (λ e. e ≡ plain kind.OutOfMemory) }
    {
        match self.buffer.front() {
            Some(event) => copied_event(self.alloc, &event),
            None => unreachable!(),
        }
    }

    // A copy of its token.
    fn front_token(&self) -> Result<Option<ResumeToken>, Error>
        ensures ok { IfOk result (λ token. token ≡ option_and_then id_in (front_of (changes_of self.now).behind)) }
        ensures err { IfErr result (λ e. e ≡ plain kind.OutOfMemory) }
    {
        match self.buffer.front() {
            Some(event) => copied_id(self.alloc, &event),
            None => Ok(None),
        }
    }

    // Goes on to the next event, where it has a token.
    fn advance(&mut self) -> Result<(), Error>
        requires next { (changes_of self.old).behind ≢ [] }
        requires rests { (client_of self.old.batches).doing ≡ rests }
        requires follows { self.old.phase ≡ Phase.Follows }
        requires placed { IsPlaced self.old }
        ensures ok { OnOk result ((event : List ℕ) × AnswersEvent (changes_of self.old) (changes_of self.new) event) }
        ensures err { IfErr result (λ e. LacksToken (changes_of self.old) (changes_of self.new) e) }
        ensures placed { IsPlaced self.new }
    {
        if !self.next_has_token() {
            return Err(self.pass_over());
        }
        self.give();
        Ok(())
    }

    // Whether the next event has a token.
    fn next_has_token(&self) -> bool
        ensures { result ≡ next_has (changes_of self.now).behind }
    {
        match self.buffer.front() {
            Some(event) => has_id(&event),
            None => false,
        }
    }

    // Passes over the next event, which has no token: the one before lends its token still.
    fn pass_over(&mut self) -> Error
        requires next { (changes_of self.old).behind ≢ [] }
        requires lacks { next_has (changes_of self.old).behind ≡ false }
        requires placed { IsPlaced self.old }
        ensures lacks { LacksToken (changes_of self.old) (changes_of self.new) result }
        ensures placed { IsPlaced self.new }
        ensures place { self.new.token ≡ self.old.token }
    {
        self.buffer.pass_over();
        plain(ErrorKind::MissingResumeToken)
    }

    // The next event becomes the current one, and lends its token. No memory is taken.
    fn give(&mut self)
        requires has { next_has (changes_of self.old).behind ≡ true }
        requires rests { (client_of self.old.batches).doing ≡ rests }
        requires follows { self.old.phase ≡ Phase.Follows }
        ensures gives { (event : List ℕ) × AnswersEvent (changes_of self.old) (changes_of self.new) event × (Some event ≡ front_of (changes_of self.old).behind) }
        ensures event { current_of self.new.buffer ≡ front_of (changes_of self.old).behind }
        ensures placed { IsPlaced self.new }
    {
        self.buffer.advance();
        self.lends = true;
        self.token = self.place_behind();
        mark_returned(&mut self.aggregate);
    }

    // Where the token lies behind the current event: that of the batch behind its last one, where there is one.
    fn place_behind(&self) -> TokenPlace
        ensures { result ≡ place_by (behind_of self.now.buffer) (client_of self.now.batches).token }
    {
        place_behind(self.buffer.is_last(), self.batches.token().is_some())
    }

    // The copied token of the event that was given is kept, where the stream's lies in the event.
    fn own(&mut self, token: Option<ResumeToken>)
        requires is { is_lent self.old.token ≡ true → token ≡ option_and_then id_in (current_of self.old.buffer) }
        requires placed { IsPlaced self.old }
        ensures same { changes_of self.new ≡ changes_of self.old }
        ensures placed { IsPlaced self.new }
        ensures owned { IsOwnPlace self.new.token }
    {
        match self.token {
            TokenPlace::Saved => drop(token),
            TokenPlace::Event => self.save(token),
            TokenPlace::Batch => drop(token),
        }
    }

    // Copies the token out of the batch in hand.
    pub(super) fn save_token(&mut self) -> Result<(), Error>
        requires { IsPlaced self.old }
        ensures same { changes_of self.new ≡ changes_of self.old }
        ensures saved { OnOk result (self.new.token ≡ TokenPlace.Saved) }
        ensures place { OnErr result (self.new.token ≡ self.old.token) }
        ensures placed { IsPlaced self.new }
        ensures err { IfErr result (λ e. e ≡ plain kind.OutOfMemory) }
    {
        match self.token {
            TokenPlace::Saved => Ok(()),
            TokenPlace::Event => self.save_copy(),
            TokenPlace::Batch => self.save_copy(),
        }
    }

    // Copies the token, and keeps the copy.
    fn save_copy(&mut self) -> Result<(), Error>
        ensures same { changes_of self.new ≡ changes_of self.old }
        ensures saved { OnOk result (self.new.token ≡ TokenPlace.Saved) }
        ensures stays { OnErr result (self.new ≡ self.old) }
        ensures err { IfErr result (λ e. e ≡ plain kind.OutOfMemory) }
    {
        let copy = self.token_copy()?;
        self.save(copy);
        Ok(())
    }

    // A copy of the token.
    fn token_copy(&self) -> Result<Option<ResumeToken>, Error>
        ensures ok { IfOk result (λ token. token ≡ token_lying self.now.token (token_known self.now.aggregate.resume) (current_of self.now.buffer) (client_of self.now.batches).token) }
        ensures err { IfErr result (λ e. e ≡ plain kind.OutOfMemory) }
    {
        match self.cached_token() {
            Some(token) => Ok(Some(token.to_owned()?)),
            None => Ok(None),
        }
    }

    // Keeps a copy of the token.
    fn save(&mut self, token: Option<ResumeToken>)
        requires { token ≡ token_lying self.old.token (token_known self.old.aggregate.resume) (current_of self.old.buffer) (client_of self.old.batches).token }
        ensures same { changes_of self.new ≡ changes_of self.old }
        ensures saved { self.new.token ≡ TokenPlace.Saved }
    {
        remember(&mut self.aggregate, token);
        self.token = TokenPlace::Saved;
    }

    // Whether a call that seeks goes on behind a step: behind one that goes on, and behind an empty reply of an open cursor,
    // which is counted, unless it is one too many.
    pub(super) fn seeks_on(&mut self, again: bool, stepped: &Stepped) -> bool
        ensures seeks { SeeksOnBehind again stepped.now (changes_of self.old) (changes_of self.new) result }
        ensures rest { self.new ≡ record self.old { counts = self.new.counts } }
    {
        match stepped {
            Stepped::Goes => true,
            Stepped::Found => false,
            Stepped::Gives(poll) => self.seeks_behind(again, poll),
        }
    }

    // The same behind a step that ended, or whose reply pends.
    fn seeks_behind(&mut self, again: bool, poll: &TryPoll) -> bool
        ensures seeks { SeeksOnGiven again poll.now (changes_of self.old) (changes_of self.new) result }
        ensures rest { self.new ≡ record self.old { counts = self.new.counts } }
    {
        match poll {
            TryPoll::Pending => false,
            TryPoll::Ready(advance) => self.seeks_by(again, advance),
            TryPoll::Failed(_) => false,
        }
    }

    // The same, where it has not failed.
    fn seeks_by(&mut self, again: bool, advance: &AdvanceResult<()>) -> bool
        ensures seeks { SeeksOnGiven again (TryPoll.Ready advance.now) (changes_of self.old) (changes_of self.new) result }
        ensures rest { self.new ≡ record self.old { counts = self.new.counts } }
    {
        match advance {
            AdvanceResult::Advanced(_) => false,
            AdvanceResult::Exhausted => false,
            AdvanceResult::Waiting => self.count(again),
        }
    }

    // Counts an empty reply of an open cursor, unless it is one too many.
    fn count(&mut self, again: bool) -> bool
        ensures counts { CountsIfOpen again (changes_of self.old) (changes_of self.new) result }
        ensures rest { self.new ≡ record self.old { counts = self.new.counts } }
    {
        if self.batches.is_exhausted() {
            return false;
        }
        match self.counts.one_more(again) {
            Some(counts) => {
                self.counts = counts;
                true
            }
            None => false,
        }
    }

    // What the last step of a call that seeks comes to: an empty reply of an open cursor is one too many.
    pub(super) fn end_seeking(&mut self, stepped: Stepped) -> EventPoll
        requires last { MayEnd stepped (changes_of self.old) }
        requires rests { stepped ≡ Stepped.Found → (client_of self.old.batches).doing ≡ rests }
        requires follows { stepped ≡ Stepped.Found → self.old.phase ≡ Phase.Follows }
        requires placed { IsPlaced self.old }
        ensures ends { EndsBehind stepped (changes_of self.old) (changes_of self.new) result }
        ensures placed { IsPlaced self.new }
        ensures owned { KeepsOwn self.old.token self.new.token }
    {
        match stepped {
            Stepped::Goes => unreachable!(),
            Stepped::Found => self.copy(),
            Stepped::Gives(poll) => self.end_given(poll),
        }
    }

    // The same of a step that ended, or whose reply pends.
    fn end_given(&self, poll: TryPoll) -> EventPoll
        ensures { EndsGiven poll (changes_of self.now) (changes_of self.now) result }
    {
        match poll {
            TryPoll::Pending => EventPoll::Pending,
            TryPoll::Ready(advance) => self.end_with(advance),
            TryPoll::Failed(error) => EventPoll::Failed(error),
        }
    }

    // The same, where it has not failed.
    fn end_with(&self, advance: AdvanceResult<()>) -> EventPoll
        ensures { EndsGiven (TryPoll.Ready advance) (changes_of self.now) (changes_of self.now) result }
    {
        match advance {
            AdvanceResult::Advanced(()) => EventPoll::Ready(None),
            AdvanceResult::Exhausted => EventPoll::Ready(None),
            AdvanceResult::Waiting => self.end_empty(),
        }
    }

    // An empty reply with which a call that seeks ends.
    fn end_empty(&self) -> EventPoll
        ensures { EndsEmpty (changes_of self.now) result }
    {
        if self.batches.is_exhausted() {
            EventPoll::Ready(None)
        } else {
            EventPoll::Failed(plain(ErrorKind::EmptyBatches))
        }
    }

    // A call that has ended leaves no counts.
    pub(super) fn end(&mut self, poll: TryPoll) -> TryPoll
        ensures answer { result ≡ poll }
        ensures kept { changes_of self.new ≡ kept_behind (try_ending poll) (changes_of self.old) }
        ensures rest { self.new ≡ record self.old { counts = self.new.counts } }
    {
        match poll {
            TryPoll::Pending => TryPoll::Pending,
            TryPoll::Ready(advance) => {
                self.uncount();
                TryPoll::Ready(advance)
            }
            TryPoll::Failed(error) => {
                self.uncount();
                TryPoll::Failed(error)
            }
        }
    }

    pub(super) fn end_call(&mut self, poll: EventPoll) -> EventPoll
        ensures answer { result ≡ poll }
        ensures kept { changes_of self.new ≡ kept_behind (event_ending poll) (changes_of self.old) }
        ensures rest { self.new ≡ record self.old { counts = self.new.counts } }
    {
        match poll {
            EventPoll::Pending => EventPoll::Pending,
            EventPoll::Ready(event) => {
                self.uncount();
                EventPoll::Ready(event)
            }
            EventPoll::Failed(error) => {
                self.uncount();
                EventPoll::Failed(error)
            }
        }
    }

    fn uncount(&mut self)
        ensures { self.new ≡ record self.old { counts = no_counts } }
    {
        self.counts = Counts::none();
    }
}

// Keeps a token in what the stream resumes by.
fn remember(aggregate: &mut ChangeStreamAggregate, token: Option<ResumeToken>)
    ensures { aggregate.new ≡ with_token token aggregate.old }
{
    match &mut aggregate.resume {
        Some(known) => drop(mem::replace(&mut known.resume_token, token)),
        None => drop(token),
    }
}

// An event was given.
fn mark_returned(aggregate: &mut ChangeStreamAggregate)
    ensures { aggregate.new ≡ returned aggregate.old }
{
    match &mut aggregate.resume {
        Some(known) => known.document_returned = true,
        None => {}
    }
}

// The token that is saved.
pub(crate) fn saved_token(aggregate: &ChangeStreamAggregate) -> Option<TokenRef<'_>>
    ensures { result ≡ token_known aggregate.now.resume }
{
    match &aggregate.resume {
        Some(known) => match &known.resume_token {
            Some(token) => Some(token.as_ref()),
            None => None,
        },
        None => None,
    }
}

// The token of the event that was given last.
pub(crate) fn event_token(alloc: Global, buffer: &BatchBuffer) -> Option<TokenRef<'_>>
    ensures { result ≡ option_and_then id_in (current_of buffer.now) }
{
    match buffer.current() {
        Some(event) => lent_id(alloc, &event),
        None => None,
    }
}

// A copy of an event.
fn copied_event(alloc: Global, event: &RawDocument<'_>) -> Result<RawDocumentBuf, Error>
    ensures ok { IfOk result (λ copy. copy ≡ event.now) }
    ensures err { IfErr result (λ e. e ≡ plain kind.OutOfMemory) }
{
    Ok(event.to_buf(alloc)?)
}

// The token that lies in an event.
fn lent_id<'a>(alloc: Global, event: &RawDocument<'a>) -> Option<TokenRef<'a>>
    ensures { result ≡ id_in event.now }
{
    match event.get("_id") {
        Some(id) => Some(TokenRef::from_raw(alloc, id)),
        None => None,
    }
}

// A copy of it.
fn copied_id(alloc: Global, event: &RawDocument<'_>) -> Result<Option<ResumeToken>, Error>
    ensures ok { IfOk result (λ token. token ≡ id_in event.now) }
    ensures err { IfErr result (λ e. e ≡ plain kind.OutOfMemory) }
{
    match event.get("_id") {
        Some(id) => Ok(Some(ResumeToken::from_raw(alloc, &id)?)),
        None => Ok(None),
    }
}

// Whether an event has a token.
fn has_id(event: &RawDocument<'_>) -> bool
    ensures { result ≡ is_some (id_in event.now) }
{
    event.get("_id").is_some()
}
