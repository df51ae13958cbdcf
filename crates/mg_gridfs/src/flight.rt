//! Requests whose outcome matters no more.
ghost use Rattle.std.specs.Prelude.{◌≡◌, option_map};
ghost use Rattle.mg_link.specs.Acts.{IsOut};
ghost use Rattle.mg_link.specs.Moment.{LinkKeeps, moment};
ghost use Rattle.mg_gridfs.specs.Checks.{landing_ending};
ghost use Rattle.mg_gridfs.specs.Steps.{LandsFlight};
ghost use Rattle.mg_gridfs.specs.Uploads.{IsFreeFlight, by_check, by_command, flight_ticket, left_ticket};
ghost use Rattle.mg_gridfs.specs.UploadView.{check_of, flight_of};

use crate::check::{Checking, still};
use mg_exec::Exec;
use mg_link::{Action, Link};

// A request of an upload that is given up.
#[derive(Drop)]
pub(crate) enum Flight {
    Check(Checking),
    Command(Exec),
}

// What waits still of a check.
fn checked(check: Option<Checking>) -> Option<Flight>
    ensures { option_map flight_of result ≡ option_map by_check (option_map check_of check) }
{
    match check {
        Some(check) => Some(Flight::Check(check)),
        None => None,
    }
}

// What waits still of a command.
fn commanded(exec: Option<Exec>) -> Option<Flight>
    ensures { option_map flight_of result ≡ option_map by_command exec }
{
    match exec {
        Some(exec) => Some(Flight::Command(exec)),
        None => None,
    }
}

impl Flight {
    // The number of the ticket that it holds.
    pub(crate) fn ticket_number(&self) -> Option<u64>
        ensures { result ≡ flight_ticket (flight_of self.now) }
    {
        match self {
            Flight::Check(check) => check.ticket_number(),
            Flight::Command(exec) => exec.ticket_number(),
        }
    }

    // Polls it, and says what waits still.
    pub(crate) fn land<L: Link>(self, link: &mut L) -> Option<Flight>
        requires held { IsOut (L.awaited link.old) (flight_ticket (flight_of self)) }
        requires free { IsFreeFlight (flight_of self) }
        ensures keeps { LinkKeeps (moment (L.awaited link.old) (L.log link.old) (L.faults link.old) (L.pends link.old) (L.wire link.old) (L.prompt link.old))
            (moment (L.awaited link.new) (L.log link.new) (L.faults link.new) (L.pends link.new) (L.wire link.new) (L.prompt link.new))
            (flight_ticket (flight_of self)) (left_ticket (option_map flight_of result)) (landing_ending (option_map flight_of result)) }
        ensures lands { LandsFlight (L.awaited link.old) (L.awaited link.new) (L.log link.old) (L.log link.new) (L.wire link.old) (flight_of self) (option_map flight_of result) }
    {
        match self {
            Flight::Check(check) => checked(check.land(link)),
            Flight::Command(exec) => {
                let came = exec.poll(link);
                commanded(still(came))
            }
        }
    }
}
