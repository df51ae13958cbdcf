//! What a job of any kind is to the runner.
ghost use Rattle.std.specs.Prelude.{◌≡◌, ℕ, ℤ, Bool, List, Option, IfErr, IfOk, OnErr, OnOk};
ghost use Rattle.mg_link.specs.Errors.{plain};
ghost use Rattle.mg_link.specs.declared.error.ErrorKind.TheVariants as kinds;
ghost use Rattle.mg_link.specs.Link.{Awaited, Later};
ghost use Rattle.mg_link.specs.Log.{Call};
ghost use Rattle.mg_server.specs.Owner.{Owner};
ghost use Rattle.mg_ops.specs.Drawn.{AreLater};
ghost use Rattle.mg_script.specs.Plan.{Task};
ghost use Rattle.mg_script.specs.declared.outcome.Outcome.{Outcome};
ghost use Rattle.mg_players.specs.Losses.{LosesBy, Part};
ghost use Rattle.mg_players.specs.Plays.{CanGo, GetsReady, Goes, Places, SentAt};
ghost use Rattle.mg_players.specs.Progress.{ComesTo};
ghost use Rattle.mg_players.specs.Puts.{Supply};

use mg_bson::DateTime;
use mg_link::{Error, IdSource, Link};
use mg_script::Outcome;
use std::alloc::Global;

/// A job of one kind, which goes on turn by turn.
pub trait Kind: Sized + Drop {
    /// What it is to do.
    ghost task: { Self → Task };

    /// The ticket that it holds, while it waits for a reply.
    ghost ticket: { Self → Option ℕ };

    /// It sends nothing more.
    ghost ended: { Self → Bool };

    /// What it has in flight or open is its own, over a link of this wire version.
    ghost holds: { ℤ → Self → Type 0 };

    /// There is a place for what a turn gives.
    ghost is_ready: { Self → Type 0 };

    /// What it knows of its server, where it is this to the other jobs and the call at this place opened its stream.
    ghost plays: { Awaited → List Call → Self → Owner → Option ℕ → Type 0 };

    /// What it tells of what it sent at these places, where it is supplied so and its task is sent as this one.
    ghost tells: { Awaited → List Call → ℤ → Places → Supply → Task → Self → Option ℕ → Type 0 };

    /// How many turns that did not pend come before what goes on.
    ghost number: { Self → ℕ };

    /// How far one of so many calls has come by so many turns that did not pend, where its newest turn pended or not.
    ghost at: { ℕ → Self → ℕ → Bool → Type 0 };

    /// The same of one that got what it needs for a turn.
    ghost ready_at: { ℕ → Self → ℕ → Bool → Type 0 };

    /// How many ids it draws in its next turn.
    ghost draws: { Self → ℕ };

    /// Where it has yet to draw its ids, it is supplied with those that a source gives, and this is its task as it sends it with them.
    ghost draws_as: { (ℕ → List ℕ) → Self → Supply → Task → Type 0 };

    /// It drew the ids that it needs.
    ghost has_ids: { Self → Type 0 };

    /// The two differ at most in the room for answers.
    ghost is_same: { Self → Self → Type 0 };

    /// What became of it.
    ghost gives: { Self → Outcome → Type 0 };

    /// This part of what it tells says that a reply was lost.
    ghost says_lost: { Self → Part → Type 0 };

    /// The same job before its first turn. It stands in for one whose turn it is.
    fn anew(&self, alloc: Global) -> Self
        ensures { task result ≡ task self.now };

    fn has_ended(&self) -> bool
        ensures { result ≡ ended self.now };

    /// The number of its ticket.
    fn ticket_number(&self) -> Option<u64>
        ensures { result ≡ ticket self.now };

    /// Gets what a turn needs beside the link. Nothing is sent. An error comes only where no place for an answer was found; then no id is drawn.
    fn ready<I: IdSource>(&mut self, alloc: Global, ids: &mut I) -> Result<(), Error>
        ensures got { GetsReady ticket holds task plays tells number at ready_at has_ids says_lost (draws_as (I.ids ids.old) self.old) self.old self.new }
        ensures ready { OnOk result (is_ready self.new) }
        ensures same { OnErr result (is_same self.old self.new) }
        ensures drawn { OnOk result (AreLater (I.ids ids.old) (draws self.old) (I.ids ids.new)) }
        ensures has { OnOk result (has_ids self.new) }
        ensures undrawn { OnErr result (ids.new ≡ ids.old) }
        ensures err { IfErr result (λ e. e ≡ plain kinds.OutOfMemory) };

    /// One turn: what goes on does so until a reply pends, or to its end. New records get the moment.
    fn go<L: Link>(self, alloc: Global, link: &mut L, moment: DateTime) -> Self
        requires can { CanGo ticket holds (L.awaited link.old) (L.wire link.old) self }
        requires ready { is_ready self }
        ensures goes { Goes ticket holds task plays tells number has_ids (SentAt moment.millis) (L.awaited link.old) (L.awaited link.new) (L.log link.old) (L.log link.new) (L.wire link.new) self result }
        ensures comes { ComesTo (λ calls k last. ready_at calls self k last) (λ calls k last. at calls result k last) (L.pends link.old) (L.pends link.new) }
        // It says that a reply was lost only where the link counted a fault; of the end of a put, where it did or a reply pended.
        ensures lost { LosesBy says_lost (L.faults link.old) (L.faults link.new) (L.pends link.old) (L.pends link.new) self result }
        ensures later { Later (L.faults link.old) (L.faults link.new) (L.pends link.old) (L.pends link.new)
            (L.wire link.old) (L.wire link.new) (L.prompt link.old) (L.prompt link.new) };

    /// What became of it. Only memory can fail: the token of a stream that is still open is copied.
    fn into_outcome(self, alloc: Global) -> Result<Outcome, Error>
        ensures of { IfOk result (λ o. gives self o) }
        ensures err { IfErr result (λ e. e ≡ plain kinds.OutOfMemory) };
}
