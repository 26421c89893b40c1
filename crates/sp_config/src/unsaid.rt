// What a debug line says of a configuration and of a draft: all but keys and seeds.
use crate::{Config, Draft, DraftNode, Peer};
use std::fmt;

impl fmt::Debug for Config {
    fn fmt<W: fmt::Write>(&self, f: &mut fmt::Formatter<W>) -> fmt::Result {
        f.debug_struct("Config")
            .field("node", &self.node)
            .field("port", &self.port)
            .field("client_port", &self.client_port)
            .finish_non_exhaustive()
    }
}

impl fmt::Debug for Peer {
    fn fmt<W: fmt::Write>(&self, f: &mut fmt::Formatter<W>) -> fmt::Result {
        f.debug_struct("Peer")
            .field("id", &self.id)
            .field("port", &self.port)
            .finish_non_exhaustive()
    }
}

impl fmt::Debug for Draft {
    fn fmt<W: fmt::Write>(&self, f: &mut fmt::Formatter<W>) -> fmt::Result {
        f.debug_struct("Draft")
            .field("version", &self.version)
            .field("height", &self.height)
            .finish_non_exhaustive()
    }
}

impl fmt::Debug for DraftNode {
    fn fmt<W: fmt::Write>(&self, f: &mut fmt::Formatter<W>) -> fmt::Result {
        f.debug_struct("DraftNode")
            .field("id", &self.id)
            .finish_non_exhaustive()
    }
}
