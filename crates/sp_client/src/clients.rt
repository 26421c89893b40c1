// The sessions of all clients of a node. All memory is taken at the start, but for that of a reply that is given out.
ghost use Rattle.std.specs.Prelude.{◌≡◌, ◌<◌, ◌≤◌, [], IfNone, IfOk, IfSome, OnErr, OnOk, None as Nothing, find, length, option_map};
ghost use Rattle.std.specs.Prelude.{position, true, vec_capacity};
ghost use Rattle.sp_client.specs.Replies.{IsShort};
ghost use Rattle.sp_client.specs.Requests.{IsCommand, IsInRange};
ghost use Rattle.sp_client.specs.Sessions.{Answers, is_local};
ghost use Rattle.sp_client.specs.Sessions as said;
ghost use Rattle.sp_client.specs.Tables.{Datagram, Serves, has_port, no_sessions, ran, session_in, sessions_after};
ghost use Rattle.sp_client.specs.Tables as tables;
ghost use Rattle.sp_client.specs.declared.limits.TheConstants.{MAX_REPLY_BYTES, MAX_SESSIONS};

use crate::ask::ask;
use crate::session::Session;
use crate::spelling::{Reply, reply_of};
use crate::{Answer, Command, Local, MAX_REPLY_BYTES, MAX_SESSIONS, Request, read_request};
use sp_base::{Bytes, Memory, push_in_room};
use std::alloc::Global;
use std::marker::Model;

/// The sessions of the clients of a node: at most `MAX_SESSIONS` ports have one, and at most one of them takes messages.
#[derive(Debug, Drop)]
pub struct Clients {
    sessions: Vec<Session>,
    holder: Option<u16>,
}

impl Model for Clients {
    ghost use Rattle.std.specs.Prelude.{◌≤◌, length, vec_capacity};
    ghost use Rattle.sp_client.specs.Tables.{Table};
    ghost use Rattle.sp_client.specs.declared.limits.TheConstants.{MAX_SESSIONS};

    ghost Value = { Table };

    ghost view = { λ c. record { sessions = c.sessions.items; holder = c.holder } };

    ghost invariant = { λ c. (length c.sessions.items ≤ MAX_SESSIONS) × (MAX_SESSIONS ≤ vec_capacity c.sessions) };
}

impl Clients {
    /// No port has a session yet. It takes the memory of all sessions and their replies.
    pub fn new(alloc: Global) -> Result<Clients, Memory>
        ensures { IfOk result (λ clients. clients ≡ no_sessions) }
    {
        Ok(Clients {
            sessions: Vec::with_capacity(alloc, MAX_SESSIONS)?,
            holder: None,
        })
    }

    /// The reply to a datagram of a port of this machine. A datagram that is no request is told so, and a repeat gets the reply of
    /// the first time; neither takes a call of the local, nor does what is refused. Else the request runs, with at most one call.
    /// `Memory` leaves the sessions and the local as before: the memory of the longest reply is taken before the local is called.
    pub fn datagram<L: Local>(
        &mut self,
        alloc: Global,
        local: &mut L,
        port: u16,
        bytes: &[u8],
    ) -> Result<Bytes, Memory>
        ensures handled { IfOk result (λ reply. Datagram L.steps self.old port bytes.now reply self.new local.old local.new) }
        ensures short { IfOk result (λ reply. length reply ≤ MAX_REPLY_BYTES) }
        ensures memory { OnErr result ((self.new ≡ self.old) × (local.new ≡ local.old)) }
    {
        let Some(request) = read_request(alloc, bytes)? else {
            return Bytes::copy(alloc, b"0 badrequest");
        };
        let mut reply = Vec::with_capacity(alloc, MAX_REPLY_BYTES)?;
        self.serve(alloc, local, port, &request, &mut reply)?;
        Ok(Bytes::from_vec(reply))
    }

    /// Writes the reply to a request into memory that is taken already.
    fn serve<L: Local>(
        &mut self,
        alloc: Global,
        local: &mut L,
        port: u16,
        request: &Request,
        reply: &mut Vec<u8>,
    ) -> Result<(), Memory>
        requires range { IsInRange request.now }
        requires empty { reply.old.items ≡ [] }
        requires room { MAX_REPLY_BYTES ≤ vec_capacity reply.old }
        ensures served { OnOk result (Serves L.steps self.old port request.now reply.new.items self.new local.old local.new) }
        ensures short { OnOk result (length reply.new.items ≤ MAX_REPLY_BYTES) }
        ensures memory { OnErr result ((self.new ≡ self.old) × (local.new ≡ local.old)) }
    {
        if let Some(kept) = self.repeat(port, request.number) {
            append(reply, kept);
            return Ok(());
        }
        if let Some(answer) = self.refusal(port, request) {
            append(reply, reply_of(request.number, &answer).as_slice());
            return Ok(());
        }
        let answer = self.answer(alloc, local, port, &request.command)?;
        let kept = reply_of(request.number, &answer);
        append(reply, kept.as_slice());
        self.keep(port, request, &answer, kept);
        Ok(())
    }

    /// The reply to a repeat. None where the request is none.
    fn repeat(&self, port: u16, number: u64) -> Option<&[u8]>
        ensures reply { option_map (λ kept. kept.now) result ≡ tables.repeat self.now port number }
        ensures short { IfSome result (λ kept. length kept.now ≤ MAX_REPLY_BYTES) }
    {
        let session = self.session(port)?;
        if number == session.last() {
            Some(session.kept())
        } else {
            None
        }
    }

    /// The answer to what neither is a repeat nor runs.
    fn refusal(&self, port: u16, request: &Request) -> Option<Answer>
        requires { IsInRange request.now }
        ensures answer { result ≡ tables.refusal self.now port request.now }
        ensures short { IfSome result IsShort }
    {
        let Some(session) = self.session(port) else {
            return self.outside(request);
        };
        let last = session.last();
        if request.number - 1 == last {
            None
        } else {
            Some(Answer::BadNumber { last })
        }
    }

    /// The answer without a session. None where one begins.
    fn outside(&self, request: &Request) -> Option<Answer>
        ensures answer { result ≡ tables.outside request.now (length self.now.sessions) }
        ensures short { IfSome result IsShort }
    {
        if !matches!(request.command, Command::Open) {
            return Some(Answer::NoSession);
        }
        if request.number != 1 {
            return Some(Answer::BadNumber { last: 0 });
        }
        if self.sessions.len() < MAX_SESSIONS {
            None
        } else {
            Some(Answer::SessionsFull)
        }
    }

    /// The session of a port.
    fn session(&self, port: u16) -> Option<&Session>
        ensures { option_map (λ s. s.now) result ≡ session_in self.now port }
    {
        self.sessions.iter().find(|session| session.is_of(port))
    }

    /// The answer to a command that runs: the sessions' own, or that of one call of the local.
    fn answer<L: Local>(
        &self,
        alloc: Global,
        local: &mut L,
        port: u16,
        command: &Command,
    ) -> Result<Answer, Memory>
        requires { IsCommand command.now }
        ensures answer { IfOk result (λ answer. Answers L.steps (said.own_answer self.now.holder port command.now) local.old command.now answer local.new) }
        ensures short { IfOk result IsShort }
        ensures memory { OnErr result (local.new ≡ local.old) }
    {
        match own_answer(self.holder, port, command) {
            Some(answer) => Ok(answer),
            None => ask(local, alloc, command),
        }
    }

    /// Keeps what a request that ran leaves.
    fn keep(&mut self, port: u16, request: &Request, answer: &Answer, kept: Reply)
        requires { session_in self.old port ≡ Nothing → length self.old.sessions < MAX_SESSIONS }
        ensures { self.new ≡ ran self.old port request.now answer.now kept.items }
    {
        self.holder = holder_after(self.holder, port, &request.command, answer);
        keep_in(&mut self.sessions, port, request, kept);
    }
}

/// The sessions after a request of this port ran. There is room where one begins.
fn keep_in(sessions: &mut Vec<Session>, port: u16, request: &Request, kept: Reply)
    requires few { length sessions.old.items ≤ MAX_SESSIONS }
    requires begins { find (has_port port) sessions.old.items ≡ Nothing → length sessions.old.items < MAX_SESSIONS }
    requires room { MAX_SESSIONS ≤ vec_capacity sessions.old }
    ensures sessions { sessions.new.items ≡ sessions_after (find (has_port port) sessions.old.items) sessions.old.items port request.now kept.items }
    ensures few { length sessions.new.items ≤ MAX_SESSIONS }
    ensures room { MAX_SESSIONS ≤ vec_capacity sessions.new }
{
    let session = Session::new(port, request.number, kept);
    let Some(place) = place_of(sessions, port) else {
        push_in_room(sessions, session);
        return;
    };
    if is_close(&request.command) {
        sessions.remove(place);
    } else {
        sessions[place] = session;
    }
}

fn is_close(command: &Command) -> bool
    ensures { result ≡ said.is_close command.now }
{
    matches!(command, Command::Close)
}

/// The place of a port's session.
fn place_of(sessions: &[Session], port: u16) -> Option<usize>
    ensures place { result ≡ position (has_port port) sessions.now }
    ensures within { IfSome result (λ place. place < length sessions.now) }
{
    sessions.iter().position(|session| session.is_of(port))
}

/// Who listens after a request of this port ran.
fn holder_after(holder: Option<u16>, port: u16, command: &Command, answer: &Answer) -> Option<u16>
    ensures { result ≡ tables.holder_after holder port command.now answer.now }
{
    match (command, answer) {
        (Command::Close, _) => holder.filter(|holder| *holder != port),
        (Command::Listen, Answer::Listening) => Some(port),
        _ => holder,
    }
}

/// The answer of the sessions to a command of this port that runs. None where the local answers.
fn own_answer(holder: Option<u16>, port: u16, command: &Command) -> Option<Answer>
    ensures answer { result ≡ said.own_answer holder port command.now }
    ensures short { IfSome result IsShort }
    ensures local { IfNone result (is_local command.now ≡ true) }
{
    match command {
        Command::Open => Some(Answer::Opened),
        Command::Close => Some(Answer::Closed),
        Command::Listen => Some(listen_answer(holder, port)),
        Command::Take { .. } | Command::TakePrio | Command::TakeKrel { .. } => {
            take_answer(holder, port)
        }
        _ => None,
    }
}

/// The answer to `listen`.
fn listen_answer(holder: Option<u16>, port: u16) -> Answer
    ensures answer { result ≡ said.listen_answer holder port }
    ensures short { IsShort result }
{
    match holder {
        Some(holder) if holder != port => Answer::Busy { port: holder },
        _ => Answer::Listening,
    }
}

/// The answer to a take by a port that doesn't listen.
fn take_answer(holder: Option<u16>, port: u16) -> Option<Answer>
    ensures answer { result ≡ said.take_answer holder port }
    ensures short { IfSome result IsShort }
{
    match holder {
        Some(holder) if holder == port => None,
        Some(holder) => Some(Answer::Busy { port: holder }),
        None => Some(Answer::NotListening),
    }
}

/// Writes bytes into an empty vector that has room for a reply.
fn append(reply: &mut Vec<u8>, bytes: &[u8])
    requires empty { reply.old.items ≡ [] }
    requires room { length bytes.now ≤ vec_capacity reply.old }
    ensures { reply.new.items ≡ bytes.now }
{
    match reply.extend_from_slice(bytes) {
        Ok(()) => {}
        Err(_) => unreachable!(),
    }
}
