//! Sessions: what the commands of a client have in common, and how far their transaction has come.
ghost use Rattle.std.specs.Prelude.{◌≡◌, Bool, Option, Some, None, pos, option_copied, option_map, if◌then◌else◌};
ghost use Rattle.std.specs.Borrow.{LendsIf, sem};
ghost use Rattle.mg_link.specs.contracts.session.ClientSession.{the_row};
ghost use Rattle.mg_link.specs.Session.{Session, after_command, begun, ended, in_transaction, moved_on, next_number, state_at_end, starts_transaction};

use mg_bson::Document;
use std::marker::Model;

/// How far the transaction of a session has come (drivers' specification of transactions, "ClientSession changes").
#[derive(Clone, Copy, Debug, PartialEq, Eq)]
pub enum TransactionState {
    /// None was begun.
    None,
    /// One was begun, and no command of it was started yet.
    Starting,
    /// A command of it was started.
    InProgress,
    /// It was committed.
    Committed,
    /// It was aborted.
    Aborted,
}

/// A session (drivers' specification of sessions, "ClientSession"). Each of its commands names its id, and those of a
/// transaction the number of this one too.
pub struct ClientSession {
    id: Document,
    state: TransactionState,
    number: i64,
}

// By hand, so that letting one go is one call.
impl Drop for ClientSession {
    fn drop(self) {
        let ClientSession {
            id: _,
            state: _,
            number: _,
        } = self;
    }
}

impl Model for ClientSession {
    ghost use Rattle.mg_link.specs.Session.{Session, coded_session};

    ghost Value = { Session };

    ghost coded = { coded_session };

    ghost view = { λ s. record { id = s.id; state = s.state; number = s.number } };
}

// The number behind this one: from the greatest on again from 1.
fn next_number(n: i64) -> i64
    ensures { result ≡ next_number n }
{
    if n < i64::MAX { n + 1 } else { 1 }
}

// What becomes of a transaction that ends.
fn state_at_end(committed: bool) -> TransactionState
    ensures { result ≡ state_at_end committed }
{
    if committed {
        TransactionState::Committed
    } else {
        TransactionState::Aborted
    }
}

// The state once a command was started.
fn moved_on(state: TransactionState) -> TransactionState
    ensures { result ≡ moved_on state }
{
    match state {
        TransactionState::None => TransactionState::None,
        TransactionState::Starting => TransactionState::InProgress,
        TransactionState::InProgress => TransactionState::InProgress,
        TransactionState::Committed => TransactionState::Committed,
        TransactionState::Aborted => TransactionState::Aborted,
    }
}

impl ClientSession {
    /// A session with this id, in which no transaction was begun.
    pub fn new(lsid: Document) -> ClientSession
        ensures { result ≡ record { id = lsid; state = TransactionState.None; number = pos 0 } }
    {
        ClientSession {
            id: lsid,
            state: TransactionState::None,
            number: 0,
        }
    }

    /// Its id, the `lsid` of its commands.
    pub fn id(&self) -> &Document
        ensures { result.now ≡ self.now.id }
    {
        &self.id
    }

    /// How far its transaction has come.
    pub fn transaction_state(&self) -> TransactionState
        ensures { result ≡ self.now.state }
    {
        self.state
    }

    /// The number of its newest transaction, 0 where none was begun.
    pub fn transaction_number(&self) -> i64
        ensures { result ≡ self.now.number }
    {
        self.number
    }

    /// Whether a transaction goes on.
    pub fn in_transaction(&self) -> bool
        ensures { result ≡ in_transaction self.now }
    {
        match self.state {
            TransactionState::None => false,
            TransactionState::Starting => true,
            TransactionState::InProgress => true,
            TransactionState::Committed => false,
            TransactionState::Aborted => false,
        }
    }

    /// Whether its next command is the first of a transaction.
    pub fn starts_transaction(&self) -> bool
        ensures { result ≡ starts_transaction self.now }
    {
        match self.state {
            TransactionState::None => false,
            TransactionState::Starting => true,
            TransactionState::InProgress => false,
            TransactionState::Committed => false,
            TransactionState::Aborted => false,
        }
    }

    /// Begins a transaction. Its number is the next one: from 1 on, and behind the greatest number from 1 on again.
    pub fn begin(&mut self)
        ensures { self.new ≡ begun self.old }
    {
        self.state = TransactionState::Starting;
        self.number = next_number(self.number);
    }

    /// Ends its transaction, which was committed or aborted.
    pub fn end(&mut self, committed: bool)
        ensures { self.new ≡ ended committed self.old }
    {
        self.state = state_at_end(committed);
    }

    /// Notes that a command of it was started. A transaction that was starting is in progress from then on.
    pub fn command_started(&mut self)
        ensures { self.new ≡ after_command self.old }
    {
        self.state = moved_on(self.state);
    }
}

/// How a cursor holds the session of its commands.
pub trait ClientSessionHandle {
    /// Nobody asked for the session.
    ghost implicit: { Self → Bool };

    /// The session, where there is one.
    ghost session: { Self → Option Session };

    /// The handle with another session.
    ghost with_session: { Self → Session → Self };

    /// The session that its commands name.
    ghost asked: { Self → Option Session };

    /// The handle once a command was started.
    ghost told: { Self → Self };

    /// Whether nobody asked for the session. Then no command names it.
    fn is_implicit(&self) -> bool
        ensures { result ≡ implicit self.now };

    /// Lends the session, where there is one.
    fn borrow_mut(&mut self) -> Option<&mut ClientSession>
        ensures* writes_back { sem 𝓛 (LendsIf Self.row the_row self.entry result (with_session self.old) self.old) }
        ensures value { option_map (λ s. s.now) result ≡ session self.old };

    /// Lends the session that its commands name: the one that was asked for.
    fn asked(&self) -> Option<&ClientSession>
        ensures { option_copied result ≡ asked self.now };

    /// Notes that a command was started, which moves on the transaction of the session that it names.
    fn command_started(&mut self)
        ensures { self.new ≡ told self.old };

    /// No command names a session that nobody asked for.
    ghost asks: { (h : Self) → asked h ≡ if implicit h then None else session h };

    /// The session that is asked for moves on, and all else stays.
    ghost moves: { (h : Self) → asked (told h) ≡ option_map after_command (asked h) };

    /// A session that is put into a handle is its session.
    ghost holds: { (h : Self) (s : Session) → session (with_session h s) ≡ Some s };

    /// Who asked for it stays.
    ghost keeps_asked: { (h : Self) (s : Session) → implicit (with_session h s) ≡ implicit h };
}

/// A session that nobody asked for, or none.
pub struct ImplicitClientSessionHandle(pub Option<ClientSession>);

// By hand, so that letting one go is one call.
impl Drop for ImplicitClientSessionHandle {
    fn drop(self) {
        let ImplicitClientSessionHandle(_) = self;
    }
}

impl ClientSessionHandle for ImplicitClientSessionHandle {
    ghost use Rattle.std.specs.Prelude.{Some, None, true, refl};

    ghost implicit = { λ _. true };

    ghost session = { λ h. h.0 };

    ghost with_session = { λ h s. record h { 0 = Some s } };

    ghost asked = { λ _. None };

    ghost told = { λ h. h };

    ghost asks = { λ _. refl };

    ghost moves = { λ _. refl };

    ghost holds = { λ h s. refl };

    ghost keeps_asked = { λ h s. refl };

    fn is_implicit(&self) -> bool {
        true
    }

    fn borrow_mut(&mut self) -> Option<&mut ClientSession> {
        self.0.as_mut()
    }

    fn asked(&self) -> Option<&ClientSession> {
        None
    }

    fn command_started(&mut self) {}
}

/// The session of a caller, who asked for it.
#[derive(Drop)]
pub struct ExplicitClientSessionHandle<'a>(pub &'a mut ClientSession);

impl ClientSessionHandle for ExplicitClientSessionHandle<'_> {
    ghost use Rattle.std.specs.Prelude.{Some, false, refl};
    ghost use Rattle.mg_link.specs.Session.{after_command};

    ghost implicit = { λ _. false };

    ghost session = { λ h. Some h.0.now };

    ghost with_session = { λ h s. record h { 0 = record h.0 { now = s } } };

    ghost asked = { λ h. Some h.0.now };

    ghost told = { λ h. record h { 0 = record h.0 { now = after_command h.0.now } } };

    ghost asks = { λ _. refl };

    ghost moves = { λ _. refl };

    ghost holds = { λ h s. refl };

    ghost keeps_asked = { λ h s. refl };

    fn is_implicit(&self) -> bool {
        false
    }

    fn borrow_mut(&mut self) -> Option<&mut ClientSession> {
        Some(&mut *self.0)
    }

    fn asked(&self) -> Option<&ClientSession> {
        Some(&*self.0)
    }

    fn command_started(&mut self) {
        self.0.command_started();
    }
}
