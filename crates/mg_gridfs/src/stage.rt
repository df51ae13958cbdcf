//! How far a call of an upload has come.
ghost use Rattle.std.specs.Prelude.{◌≡◌};
ghost use Rattle.mg_gridfs.specs.Calls.{landing_of};
ghost use Rattle.mg_gridfs.specs.Uploads.{phase_ticket};
ghost use Rattle.mg_gridfs.specs.UploadView.{back_phase, phase_of};

use crate::check::Checking;
use crate::flight::Flight;
use mg_bson::DateTime;
use mg_exec::Exec;
use mg_link::{Error, Step};

// The length of a file whose bytes are all taken, and the moment of its record.
#[derive(Clone, Copy)]
pub(crate) struct Ending {
    pub(crate) length: u64,
    pub(crate) moment: DateTime,
}

// The way back of an upload that is given up, with an error unless it is aborted.
#[derive(Drop)]
pub(crate) enum Back {
    // A request on its way ends first.
    Land(Flight, Option<Error>),
    // Its chunks are removed next.
    Undo(Option<Error>),
    Remove(Exec, Option<Error>),
}

// What is on its way, or comes next.
#[derive(Drop)]
pub(crate) enum Stage {
    // The indexes are checked next.
    Begin,
    Check(Checking),
    // The full chunks are inserted next.
    Fill,
    // So many of them are inserted.
    Insert(Exec, u32),
    // What is left is inserted next, as the last chunk.
    Rest(DateTime),
    Last(Exec, Ending),
    // The record is inserted next.
    End(Ending),
    Record(Exec, Ending),
    Back(Back),
}

// What a step came to: the call goes on, or its poll ends so.
#[derive(Drop)]
pub(crate) enum Turn {
    Goes(Stage),
    Stops(Step<Stage, ()>),
}

impl Back {
    // The number of the ticket that it holds.
    pub(crate) fn ticket_number(&self) -> Option<u64>
        ensures { result ≡ phase_ticket (back_phase self.now) }
    {
        match self {
            Back::Land(flight, _) => flight.ticket_number(),
            Back::Undo(_) => None,
            Back::Remove(exec, _) => exec.ticket_number(),
        }
    }

    // The same with this error, or with none: what is on its way ends first.
    fn again(self, error: Option<Error>) -> Back
        ensures { back_phase result ≡ landing_of (back_phase self) error }
    {
        match self {
            Back::Land(flight, _) => Back::Land(flight, error),
            Back::Undo(_) => Back::Undo(error),
            Back::Remove(exec, _) => Back::Land(Flight::Command(exec), error),
        }
    }
}

impl Stage {
    // The number of the ticket that it holds.
    pub(crate) fn ticket_number(&self) -> Option<u64>
        ensures { result ≡ phase_ticket (phase_of self.now) }
    {
        match self {
            Stage::Begin => None,
            Stage::Check(check) => check.ticket_number(),
            Stage::Fill => None,
            Stage::Insert(exec, _) => exec.ticket_number(),
            Stage::Rest(_) => None,
            Stage::Last(exec, _) => exec.ticket_number(),
            Stage::End(_) => None,
            Stage::Record(exec, _) => exec.ticket_number(),
            Stage::Back(back) => back.ticket_number(),
        }
    }

    // It is given up, with this error or with none: what is on its way ends first.
    pub(crate) fn give_up(self, error: Option<Error>) -> Back
        ensures { back_phase result ≡ landing_of (phase_of self) error }
    {
        match self {
            Stage::Begin => Back::Undo(error),
            Stage::Check(check) => Back::Land(Flight::Check(check), error),
            Stage::Fill => Back::Undo(error),
            Stage::Insert(exec, _) => Back::Land(Flight::Command(exec), error),
            Stage::Rest(_) => Back::Undo(error),
            Stage::Last(exec, _) => Back::Land(Flight::Command(exec), error),
            Stage::End(_) => Back::Undo(error),
            Stage::Record(exec, _) => Back::Land(Flight::Command(exec), error),
            Stage::Back(back) => back.again(error),
        }
    }
}
