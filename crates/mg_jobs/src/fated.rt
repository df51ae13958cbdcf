//! A link in memory whose fates are known.
ghost use Rattle.std.specs.Prelude.{◌≡◌, List};
ghost use Rattle.mg_store.specs.declared.fate.Fate.{Fate};

use mg_bson::RawDocument;
use mg_link::{Link, LinkError, Polled, Ticket};
use mg_store::MemLink;
use std::marker::{Brand, Model, PhantomData};

/// What is known of a link before its run, for proofs alone.
pub(crate) trait Fated {
    /// Its fates.
    ghost fates: { List Fate };
}

impl Fated for Brand {
    ghost use Rattle.std.specs.Prelude.{[]};

    ghost fates = { [] };
}

/// A link in memory whose fates stay as they are known, and which alone uses its store. To clauses it is the link behind it.
pub(crate) struct FatedLink<F: Fated> {
    link: MemLink,
    fated: PhantomData<F>,
}

// By hand, so that letting one go is one call.
impl<F: Fated> Drop for FatedLink<F> {
    fn drop(self) {
        let FatedLink { link: _, fated: _ } = self;
    }
}

impl<F: Fated> Model for FatedLink<F> {
    ghost use Rattle.std.specs.Prelude.{◌≡◌};
    ghost use Rattle.mg_store.specs.InMemory.{InMemory};
    ghost use Rattle.mg_jobs.specs.Fated.{AreItsSteps};

    ghost Value = { InMemory };

    ghost view = { λ l. l.link };

    ghost invariant = { λ l. (l.link.fates ≡ F.fates) × AreItsSteps l.link.stored.history l.link.calls };
}

impl<F: Fated> FatedLink<F> {
    ghost use Rattle.mg_jobs.specs.Fated.{AreItsSteps};

    pub(crate) fn new(link: MemLink) -> FatedLink<F>
        requires fates { link.fates ≡ F.fates }
        requires steps { AreItsSteps link.stored.history link.calls }
        ensures { result ≡ link }
    {
        FatedLink {
            link,
            fated: PhantomData,
        }
    }

    pub(crate) fn into_link(self) -> MemLink
        ensures link { result ≡ self }
        ensures fates { result.fates ≡ F.fates }
        ensures steps { AreItsSteps result.stored.history result.calls }
    {
        let FatedLink { link, fated: _ } = self;
        link
    }
}

impl<F: Fated> Link for FatedLink<F> {
    ghost use Rattle.std.specs.Prelude.{Some};
    ghost use Rattle.mg_link.specs.Places.{out_at, polls_in};
    ghost use Rattle.mg_store.specs.InMemory.{IsPromptLink, faults_in, pends_in};

    ghost faults = { λ m. faults_in m.calls };

    ghost pends = { λ m. pends_in m.pended };

    ghost polls = { λ m. polls_in m.pended };

    ghost log = { λ m. Some m.calls };

    ghost awaited = { λ m. out_at m.calls };

    ghost prompt = { λ m. IsPromptLink m.fates m.calls m.pended };

    ghost wire = { λ m. m.wire };

    fn start(&mut self, command: RawDocument<'_>) -> Result<Ticket, LinkError> {
        self.link.start(command)
    }

    fn poll(&mut self, ticket: Ticket) -> Polled {
        self.link.poll(ticket)
    }

    fn wire_version(&self) -> i32 {
        self.link.wire_version()
    }
}
