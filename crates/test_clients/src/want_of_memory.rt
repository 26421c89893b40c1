// What a client sees where no memory is left: nothing ran, and the same request runs when it comes again.
use crate::memory_node::MemoryNode;
use sp_base::Memory;
use sp_client::Clients;
use std::alloc::Global;
use std::process::Abort;
use std::test::Fail;

/// The reply to a request, which is sent again where no memory was left. Then no call of the node was made.
fn told(
    rt: &impl Abort,
    alloc: Global,
    clients: &mut Clients,
    node: &mut MemoryNode,
    request: &str,
    wanted: &str,
) -> Result<(), Fail> {
    let calls = node.calls;
    for _ in 0..2 {
        if let Ok(reply) = clients.datagram(alloc, node, 9000, request.as_bytes()) {
            assert!(rt; reply.as_slice() == wanted.as_bytes(), "{request}");
            return Ok(());
        }
        assert_eq!(rt; node.calls, calls, "{request}");
    }
    Err("no memory twice".into())
}

fn clients_of(alloc: Global) -> Result<Clients, Memory> {
    match Clients::new(alloc) {
        Ok(clients) => Ok(clients),
        Err(Memory) => Clients::new(alloc),
    }
}

/// Requests and their replies.
const ROWS: &str = "1 open = 1 opened
2 send 3 6869 = 2 accepted 1
2 send 3 6869 = 2 accepted 1
3 sendprio 3 5 9 0 6869 = 3 accepted 1
4 listen = 4 listening
5 take 3 = 5 empty
5 take 3 = 5 empty
6 takeprio = 6 empty
7 weight 2 20 = 7 accepted 1
7 nothing = 0 badrequest
9 open = 9 badnumber 7
8 close = 8 closed
8 close = 8 nosession";

/// `bench/fail_test.py` makes each allocation of this test fail in turn.
#[test]
fn a_send_and_a_take_run_once_whatever_memory_is_left(rt: HostRuntime) -> Result<(), Fail> {
    let alloc = rt.alloc();
    let mut clients = clients_of(alloc)?;
    let mut node = MemoryNode::new(alloc);
    for row in ROWS.lines() {
        let (request, wanted) = row.split_once(" = ").unwrap_or((row, ""));
        told(&rt, alloc, &mut clients, &mut node, request, wanted)?;
    }
    assert_eq!(rt; node.calls, 5);
    Ok(())
}
