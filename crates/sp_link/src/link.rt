// A link to a neighbour.
ghost use Rattle.std.specs.Prelude.{◌≡◌, ◌≤◌, ◌<◌, ◌^◌, length};
ghost use Rattle.sp_frame.specs.Frames.{head_of};
ghost use Rattle.sp_frame.specs.declared.frame.TheConstants.{TAG_BYTES};
ghost use Rattle.sp_link.specs.Sealing.{is_right, sealed};
ghost use Rattle.sp_link.specs.Work.{one_more, tags_after};
ghost use Rattle.sp_rules.specs.Link.{advanced, after_frame, link_answer, new_link, next_head};

use sp_base::{Bytes, NodeId};
use sp_frame::{Frame, Head, TAG_BYTES};
use sp_rules::LinkAnswer;
use std::fmt;
use std::marker::Model;

/// A link to a neighbour: what this node knows of it, and the key that the two share, which no debug line says.
#[derive(Clone, Copy)]
pub struct Link {
    pub me: NodeId,
    pub peer: NodeId,
    /// This node's boot number.
    pub boot: u64,
    /// The neighbour's boot number, 0 until it is known.
    pub peer_boot: u64,
    /// The counter of the last frame to the neighbour.
    pub sent: u64,
    /// The boot and the counter above which a frame of the neighbour is fresh.
    pub seen: (u64, u64),
    key: [u8; 32],
}

impl Model for Link {
    ghost use Rattle.sp_rules.specs.Link as rule;

    ghost Value = { rule.Link };

    ghost view = { λ l. record { me = l.me; peer = l.peer; boot = l.boot; peer_boot = l.peer_boot; sent = l.sent; seen = l.seen; key = l.key } };

    ghost inverse = { λ l. record { me = l.me; peer = l.peer; boot = l.boot; peer_boot = l.peer_boot; sent = l.sent; seen = l.seen; key = l.key } };
}

impl fmt::Debug for Link {
    fn fmt<W: fmt::Write>(&self, f: &mut fmt::Formatter<W>) -> fmt::Result {
        f.debug_struct("Link")
            .field("me", &self.me)
            .field("peer", &self.peer)
            .field("boot", &self.boot)
            .field("peer_boot", &self.peer_boot)
            .field("sent", &self.sent)
            .field("seen", &self.seen)
            .finish_non_exhaustive()
    }
}

impl Link {
    /// A link of which nothing was sent or heard.
    pub fn new(me: NodeId, peer: NodeId, boot: u64, key: [u8; 32]) -> Link
        ensures { result ≡ new_link me peer boot key }
    {
        Link {
            me,
            peer,
            boot,
            peer_boot: 0,
            sent: 0,
            seen: (0, 0),
            key,
        }
    }

    /// What the link says of a frame: the first test that fails, or that it is fresh. A fresh frame is kept as the last one, and where the
    /// neighbour's boot becomes known, its frames of lower boots are stale from then on.
    ///
    /// `tags` counts the tags that are checked: one where the frame names the ends of this link, and none else. It stands still at the end of its
    /// type.
    pub fn accept(&mut self, frame: &Frame<'_>, tags: &mut u64) -> LinkAnswer
        ensures answer { result ≡ link_answer self.old (head_of frame.now) (is_right self.old.key frame.now) }
        ensures link { self.new ≡ after_frame self.old (head_of frame.now) (is_right self.old.key frame.now) }
        ensures work { tags.new ≡ tags_after tags.old result }
    {
        let head = frame.head();
        if head.from.0 != self.peer.0 || head.to.0 != self.me.0 {
            return LinkAnswer::NotForMe;
        }
        if !is_right(&self.key, frame, tags) {
            return LinkAnswer::BadTag;
        }
        if head.echo != self.boot {
            let boot = self.peer_boot.max(head.boot);
            if boot > self.peer_boot {
                self.seen = (boot, 0);
            }
            self.peer_boot = boot;
            return LinkAnswer::Learned { boot };
        }
        if (head.boot, head.counter) <= self.seen {
            return LinkAnswer::Stale {
                boot: self.seen.0,
                counter: self.seen.1,
            };
        }
        self.peer_boot = head.boot;
        self.seen = (head.boot, head.counter);
        LinkAnswer::Fresh
    }

    /// The head of the next frame, under a topology of this version and format.
    pub fn head(&self, topology: u32, format: u8) -> Head
        requires { self.now.sent < 2 ^ 60 }
        ensures { result ≡ next_head self.now topology format }
    {
        Head {
            from: self.me,
            to: self.peer,
            boot: self.boot,
            echo: self.peer_boot,
            counter: self.sent + 1,
            topology,
            format,
        }
    }

    /// The next frame was made.
    pub fn advance(&mut self)
        requires { self.old.sent < 2 ^ 60 }
        ensures { self.new ≡ advanced self.old }
    {
        self.sent += 1;
    }

    /// Writes the tag of all bytes before it into the last 32 bytes (RFC 2104, section 2).
    pub fn seal(&self, frame: &mut Bytes)
        requires { TAG_BYTES ≤ length frame.old }
        ensures { frame.new ≡ sealed self.now.key frame.old }
    {
        let at = frame.as_slice().len() - TAG_BYTES;
        let (signed, _) = frame.as_slice().split_at(at);
        let tag = sp_hmac::tag(&self.key, &[], signed);
        frame.as_mut_slice()[at..].copy_from_slice(&tag);
    }
}

/// Whether the tag of a frame is that of all bytes before it under this key. That is counted.
fn is_right(key: &[u8; 32], frame: &Frame<'_>, tags: &mut u64) -> bool
    ensures right { result ≡ is_right key.now frame.now }
    ensures work { tags.new ≡ one_more tags.old }
{
    *tags = tags.saturating_add(1);
    sp_hmac::verify(key, &[], frame.tagged_part(), frame.tag())
}
