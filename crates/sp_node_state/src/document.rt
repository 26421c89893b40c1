// A document of the administrator comes, by hand or in a frame: it is judged, all memory is taken, and then the node runs under its version.
ghost use Rattle.std.specs.Prelude.{◌≡◌, ◌≤◌, ◌<◌, ◌+◌, [], IfOk, OnErr, None as Nothing, Some as There, length, option_map};
ghost use Rattle.laws_node.specs.Nodes.{IsKept};
ghost use Rattle.sp_node_format.specs.Format.{document_in, format_of};
ghost use Rattle.sp_hss.specs.Decision.{is_valid};
ghost use Rattle.sp_node_parts.specs.Closing.{closing_room, now_under, withdrawn_of};
ghost use Rattle.sp_rules.specs.Topologies.{succeeds};
ghost use Rattle.sp_node_state.specs.Publications.{Fits, IsJudged, IsRoomy, as_document, document_checks, told_of, under_version};
ghost use Rattle.sp_rules.specs.Documents.{after_publish, answer_to, document_answer, publish_effects, under_topology, version_effects};

use crate::State;
use sp_base::{Bytes, Memory};
use sp_msg::{Effect, Effects};
use sp_node_parts::{Fixed, Live, Withdrawn, succeeds};
use sp_rules::{DocumentAnswer, Step};
use sp_sign::Checker;
use sp_topology::{Topology, TopologyRefused};
use std::alloc::Global;

/// What bytes say as a document: a topology, and the signature of the bytes before it.
#[derive(Debug, Drop)]
pub struct Reading<'a> {
    pub topology: Topology,
    pub message: &'a [u8],
    pub signature: &'a [u8],
}

/// A version that a node is to run under: its topology, what that withdraws, and its document.
#[derive(Debug, Drop)]
pub struct NewVersion {
    pub topology: Topology,
    pub withdrawn: Withdrawn,
    pub document: Bytes,
}

/// What becomes of a document: the answer to it, and where the node adopts it, its version, with room for what that causes.
#[derive(Debug, Drop)]
pub struct Publication {
    pub answer: DocumentAnswer,
    pub version: Option<NewVersion>,
    pub effects: Effects,
}

impl State {
    /// A document is handed to the node. It is refused for want of memory alone, and then nothing has changed. Its signature is checked once, and only where
    /// its version is above that of the node.
    pub fn publish(
        &mut self,
        alloc: Global,
        checker: &mut Checker,
        document: &[u8],
    ) -> Result<Step<DocumentAnswer>, Memory>
        requires kept { IsKept (format_of self.old.fixed) self.old }
        ensures answer { IfOk result (λ step. step.reply ≡ document_answer (format_of self.old.fixed) self.old document.now) }
        ensures state { IfOk result (λ _. self.new ≡ after_publish (format_of self.old.fixed) self.old document.now) }
        ensures told { IfOk result (λ step. step.effects.list ≡ publish_effects (format_of self.old.fixed) self.old document.now) }
        ensures as_before { OnErr result (self.new ≡ self.old) }
        ensures keys { checker.new.nodes ≡ checker.old.nodes }
        ensures work { checker.new.checks ≤ checker.old.checks + document_checks self.old document.now }
    {
        let publication = self.judge_document(alloc, checker, document)?;
        Ok(self.adopt(publication))
    }

    /// What becomes of a document, before anything changes. It is refused for want of memory alone. Its signature is checked once, and only where its version
    /// is above that of the node.
    pub fn judge_document(
        &self,
        alloc: Global,
        checker: &mut Checker,
        document: &[u8],
    ) -> Result<Publication, Memory>
        requires kept { IsKept (format_of self.now.fixed) self.now }
        ensures judged { IfOk result (IsJudged self.entry.now document.now) }
        ensures keys { checker.new.nodes ≡ checker.old.nodes }
        ensures work { checker.new.checks ≤ checker.old.checks + document_checks self.entry.now document.now }
    {
        let Some(reading) = read_document(alloc, document)? else {
            return refused(alloc, DocumentAnswer::Bad);
        };
        let held = self.version();
        if reading.topology.version <= held {
            return refused(alloc, DocumentAnswer::Old { held });
        }
        let withdrawn = Withdrawn::of(alloc, &reading.topology)?;
        let answer = self.answer_to(checker, &reading, &withdrawn);
        match answer {
            DocumentAnswer::Adopted { .. } => {
                self.new_version(alloc, answer, reading, withdrawn, document)
            }
            _ => refused(alloc, answer),
        }
    }

    /// A document that was judged comes into effect, where it is adopted. It takes no memory.
    pub fn adopt(&mut self, publication: Publication) -> Step<DocumentAnswer>
        requires { Fits self.old publication }
        ensures answer { result.reply ≡ publication.answer }
        ensures state { self.new ≡ under_version self.old publication.version }
        ensures told { result.effects.list ≡ told_of self.old publication.version }
    {
        let Publication {
            answer,
            version,
            mut effects,
        } = publication;
        if let Some(version) = version {
            self.run_under(version, &mut effects);
        }
        Step {
            reply: answer,
            effects,
        }
    }

    /// The answer to what is read of a document above the version of this node. Its signature is checked once.
    fn answer_to(
        &self,
        checker: &mut Checker,
        reading: &Reading<'_>,
        withdrawn: &Withdrawn,
    ) -> DocumentAnswer
        requires count { length self.now.live.weights ≡ length self.now.fixed.topology.edges }
        requires above { self.now.live.version < reading.now.topology.version }
        requires withdrawn { withdrawn.now ≡ withdrawn_of reading.now.topology }
        ensures answer { result ≡ answer_to (format_of self.entry.now.fixed) self.entry.now (There (as_document reading.now)) }
        ensures keys { checker.new.nodes ≡ checker.old.nodes }
        ensures work { checker.new.checks ≤ checker.old.checks + 1 }
    {
        if !is_signed(&self.fixed, checker, reading) {
            return DocumentAnswer::BadSig;
        }
        if !follows(&self.fixed, &self.live, reading, withdrawn) {
            return DocumentAnswer::Strange;
        }
        DocumentAnswer::Adopted {
            version: reading.topology.version,
        }
    }

    /// All that the adoption of a version needs.
    fn new_version(
        &self,
        alloc: Global,
        answer: DocumentAnswer,
        reading: Reading<'_>,
        withdrawn: Withdrawn,
        document: &[u8],
    ) -> Result<Publication, Memory>
        ensures answer { IfOk result (λ p. p.answer ≡ answer) }
        ensures version { IfOk result (λ p. p.version
            ≡ There (record { topology = reading.entry.topology; withdrawn = withdrawn; document = document.now })) }
        ensures room { IfOk result (λ p. p.effects ≡ record { list = []; room = 1 + closing_room self.entry.now.parts }) }
    {
        let effects = self.closing_effects(alloc)?;
        let copied = Bytes::copy(alloc, document)?;
        let Reading { topology, .. } = reading;
        Ok(Publication {
            answer,
            version: Some(NewVersion {
                topology,
                withdrawn,
                document: copied,
            }),
            effects,
        })
    }

    /// No effects yet, with room for all that a version can cause.
    fn closing_effects(&self, alloc: Global) -> Result<Effects, Memory>
        ensures { IfOk result (λ effects. effects ≡ record { list = []; room = 1 + closing_room self.entry.now.parts }) }
    {
        let Some(most) = self.core.closing_room() else {
            return Err(Memory);
        };
        let Some(room) = most.checked_add(1) else {
            return Err(Memory);
        };
        match Effects::with_room(alloc, room) {
            Ok(effects) => Ok(effects),
            Err(_) => Err(Memory),
        }
    }

    /// The node runs under this version from now on, and tells so. It takes no memory.
    fn run_under(&mut self, version: NewVersion, out: &mut Effects)
        requires { IsRoomy self.old version out.old }
        ensures state { self.new ≡ under_topology self.old version.document version.topology }
        ensures told { out.new.list ≡ version_effects self.old version.topology }
    {
        let NewVersion {
            topology,
            withdrawn,
            document,
        } = version;
        out.push(Effect::Version {
            version: topology.version,
        });
        self.core.close(&topology, &withdrawn, out);
        let Withdrawn { weights, .. } = withdrawn;
        self.live = Live {
            version: topology.version,
            weights,
            document,
        };
    }
}

/// Whether the administrator signed what is read. It counts as one check.
fn is_signed(fixed: &Fixed, checker: &mut Checker, reading: &Reading<'_>) -> bool
    ensures signed { result ≡ is_valid fixed.now.admin reading.now.message.now reading.now.signature.now }
    ensures keys { checker.new.nodes ≡ checker.old.nodes }
    ensures work { checker.new.checks ≤ checker.old.checks + 1 }
{
    checker.check_topology(&fixed.admin, reading.message, reading.signature)
}

/// Whether what is read, which withdraws this, follows the topology that a node runs under.
fn follows(fixed: &Fixed, live: &Live, reading: &Reading<'_>, withdrawn: &Withdrawn) -> bool
    requires count { length live.now.weights ≡ length fixed.now.topology.edges }
    requires withdrawn { withdrawn.now ≡ withdrawn_of reading.now.topology }
    ensures { result ≡ succeeds (now_under fixed.now.topology live.now) reading.now.topology }
{
    succeeds(&fixed.topology, live, &reading.topology, withdrawn)
}

/// What the bytes say as a document. None exactly where they are none.
#[tactic(auto, using(crate::proofs::Published::size_is_within))]
fn read_document<'a>(alloc: Global, bytes: &'a [u8]) -> Result<Option<Reading<'a>>, Memory>
    ensures { IfOk result (λ read. option_map as_document read ≡ document_in bytes.now) }
{
    match Topology::read(alloc, bytes) {
        Ok((topology, size)) => {
            let (message, signature) = bytes.split_at(size);
            Ok(Some(Reading {
                topology,
                message,
                signature,
            }))
        }
        Err(TopologyRefused::Memory) => Err(Memory),
        Err(_) => Ok(None),
    }
}

/// Nothing but this answer. It takes no memory.
fn refused(alloc: Global, answer: DocumentAnswer) -> Result<Publication, Memory>
    ensures answer { IfOk result (λ p. p.answer ≡ answer) }
    ensures version { IfOk result (λ p. p.version ≡ Nothing) }
    ensures none { IfOk result (λ p. p.effects.list ≡ []) }
{
    match Effects::with_room(alloc, 0) {
        Ok(effects) => Ok(Publication {
            answer,
            version: None,
            effects,
        }),
        Err(_) => Err(Memory),
    }
}
