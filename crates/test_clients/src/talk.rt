// A talk of clients with a node: rows of a port, what it sends, and the reply that it gets.
use crate::memory_node::MemoryNode;
use sp_client::Clients;
use std::alloc::Global;
use std::process::Abort;
use std::str;
use std::test::Fail;

/// The sessions and the node that they stand before.
#[derive(Drop)]
pub struct Talk {
    alloc: Global,
    clients: Clients,
    pub node: MemoryNode,
}

impl Talk {
    pub fn new(alloc: Global) -> Result<Talk, Fail> {
        Ok(Talk {
            alloc,
            clients: Clients::new(alloc)?,
            node: MemoryNode::new(alloc),
        })
    }

    /// The reply to these bytes from a port.
    pub fn reply(&mut self, port: u16, bytes: &[u8]) -> Result<String, Fail> {
        let reply = self
            .clients
            .datagram(self.alloc, &mut self.node, port, bytes)?;
        Ok(String::from_str(self.alloc, str::from_utf8(reply.as_slice())?)?)
    }

    /// One row: the reply, or the node's time.
    fn row(&mut self, rt: &impl Abort, row: &str) -> Result<(), Fail> {
        if let Some(now) = row.strip_prefix("tick ") {
            self.node.now = now.parse()?;
            return Ok(());
        }
        let (asked, wanted) = row.split_once(" = ").ok_or("no reply")?;
        let (port, request) = asked.split_once(' ').ok_or("no request")?;
        let request = if request == "hex:-" { "" } else { request };
        let reply = self.reply(port.parse()?, request.as_bytes())?;
        assert_eq!(rt; reply.as_str(), wanted, "{row}");
        Ok(())
    }

    /// All rows of a text.
    pub fn rows(&mut self, rt: &impl Abort, text: &str) -> Result<(), Fail> {
        for row in text.lines() {
            self.row(rt, row)?;
        }
        Ok(())
    }
}
