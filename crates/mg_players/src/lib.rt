//! Jobs one by one: what a job of each kind does in a turn.
//!
//! A [`Player`] plays one job of a script over any link, turn by turn. Each kind of job is a [`Kind`]: what it is to do, what it
//! has in flight, what it knows of its server, what it tells of the commands that it sent, how far it came, and what became of it.
//! A runner gives the turns, and needs no more of a job than its kind says.
#![tactic(auto)]

mod bucket;
mod drawn;
mod follow;
mod get;
mod insert;
mod kind;
mod player;
mod put;

pub use follow::FollowPlayer;
pub use get::GetPlayer;
pub use insert::InsertPlayer;
pub use kind::Kind;
pub use player::Player;
pub use put::PutPlayer;
