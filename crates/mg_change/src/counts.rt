//! What a call that seeks an event got in vain.
ghost use Rattle.std.specs.Prelude.{◌≡◌, false, true};
ghost use Rattle.mg_change.specs.ClientStreams.{no_counts};
ghost use Rattle.mg_change.specs.StreamCalls.{CountsOne};

/// So many empty replies in a row, or resumptions without an event, are too many.
const TOO_MANY: u32 = 1000;

// What a call got so far.
#[derive(Clone, Copy)]
pub(crate) struct Counts {
    // The empty replies in a row. A resumption begins a new row.
    pub(crate) empty: u32,
    // The resumptions that gave no event and left the cursor open.
    pub(crate) resumptions: u32,
}

impl Counts {
    // Nothing was got.
    pub(crate) fn none() -> Counts
        ensures { result ≡ no_counts }
    {
        Counts {
            empty: 0,
            resumptions: 0,
        }
    }

    // With one more empty reply of an open cursor, that of a resumption or not; none where that is one too many.
    pub(crate) fn one_more(self, again: bool) -> Option<Counts>
        ensures { CountsOne again self result }
    {
        if again {
            self.one_resumption()
        } else {
            self.one_empty()
        }
    }

    // That of a resumption, which begins a new row.
    fn one_resumption(self) -> Option<Counts>
        ensures { CountsOne true self result }
    {
        if self.resumptions >= TOO_MANY - 1 {
            return None;
        }
        Some(Counts {
            empty: 1,
            resumptions: self.resumptions + 1,
        })
    }

    // Any other.
    fn one_empty(self) -> Option<Counts>
        ensures { CountsOne false self result }
    {
        if self.empty >= TOO_MANY - 1 {
            return None;
        }
        Some(Counts {
            empty: self.empty + 1,
            resumptions: self.resumptions,
        })
    }
}
