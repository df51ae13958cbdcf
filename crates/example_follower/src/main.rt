//! An example: a follower that stops, and later goes on behind the token that it stored, over a link of its own.
#![tactic(auto)]

mod follow;
mod insert;
mod one_call;
mod visit;

use crate::insert::insert;
use crate::one_call::OneCall;
use crate::visit::{first_visit, later_visit};
use mg_link::{Error, Link, Namespace};
use mg_store::Store;
use std::alloc::Global;
use std::io;
use std::process::ExitCode;

/// The wire version of the server.
const WIRE: i32 = 21;

/// The collection that is followed.
fn orders(alloc: Global) -> Result<Namespace, Error> {
    let db = String::from_str(alloc, "shop")?;
    let coll = String::from_str(alloc, "orders")?;
    Ok(Namespace { db, coll })
}

/// Two visits. Between them an order comes that nobody sees.
fn visit_twice<L: Link>(
    alloc: Global,
    link: &mut L,
    orders: &Namespace,
    report: &mut String,
) -> Result<(), Error> {
    let stored = first_visit(alloc, link, orders, report)?;
    insert(alloc, link, orders, "flour")?;
    let _token = later_visit(alloc, link, orders, &stored, report)?;
    Ok(())
}

fn run<L: Link>(alloc: Global, link: &mut L, report: &mut String) -> Result<(), Error> {
    let orders = orders(alloc)?;
    visit_twice(alloc, link, &orders, report)
}

fn main(rt: HostRuntime) -> io::Result<ExitCode> {
    let alloc = rt.alloc();
    let mut link = OneCall::new(Store::new(alloc), WIRE);
    let mut report = String::new(alloc);
    let ended = run(alloc, &mut link, &mut report);
    print!(rt; "{report}")?;
    match ended {
        Ok(()) => Ok(ExitCode::SUCCESS),
        Err(error) => {
            eprintln!(rt; "{error}")?;
            Ok(ExitCode::FAILURE)
        }
    }
}
