// A line 1-2-3: a message of node 1's client is taken by node 3's, and each recording is verified by its configuration.
use crate::host::Host;
use crate::joined::Datagram;
use sp_offline::{Offline, answer};
use sp_outside::Side;
use std::alloc::Global;
use std::str;
use std::test::Fail;

/// The line, as a draft of its topology.
const DRAFT: &str = "version = 1
height = 5
admin_seed = \"a0a0a0a0a0a0a0a0a0a0a0a0a0a0a0a0a0a0a0a0a0a0a0a0a0a0a0a0a0a0a0a0\"
admin_index = 0

[[node]]
id = 1
seed = \"0101010101010101010101010101010101010101010101010101010101010101\"

[[node]]
id = 2
seed = \"0202020202020202020202020202020202020202020202020202020202020202\"

[[node]]
id = 3
seed = \"0303030303030303030303030303030303030303030303030303030303030303\"

[[edge]]
a = 1
b = 2
weight = 10

[[edge]]
a = 2
b = 3
weight = 10
";

/// The key of the edge of nodes 1 and 2.
const NEAR: &str = "key = \"5050505050505050505050505050505050505050505050505050505050505050\"\n";

/// The key of the edge of nodes 2 and 3.
const FAR: &str = "key = \"5151515151515151515151515151515151515151515151515151515151515151\"\n";

/// What stands in the configuration of each node alone, and its neighbours with their keys.
const NODES: [(&str, &[(&str, &str)]); 3] = [
    (
        "node = 1\nport = 7001\nclient_port = 7101\nseed = \"0101010101010101010101010101010101010101010101010101010101010101\"\n",
        &[("id = 2\nport = 7002\n", NEAR)],
    ),
    (
        "node = 2\nport = 7002\nclient_port = 7102\nseed = \"0202020202020202020202020202020202020202020202020202020202020202\"\n",
        &[
            ("id = 1\nport = 7001\n", NEAR),
            ("id = 3\nport = 7003\n", FAR),
        ],
    ),
    (
        "node = 3\nport = 7003\nclient_port = 7103\nseed = \"0303030303030303030303030303030303030303030303030303030303030303\"\n",
        &[("id = 2\nport = 7002\n", FAR)],
    ),
];

/// In each round each daemon makes one turn.
const ROUNDS: u32 = 10;

/// The round in which a client asks, the port of its daemon, its request, and the reply.
const ASKED: [(u32, u16, &str, &str); 5] = [
    (0, 7_101, "1 open", "1 opened"),
    (1, 7_101, "2 send 3 6869", "2 accepted 1"),
    (2, 7_103, "1 open", "1 opened"),
    (3, 7_103, "2 listen", "2 listening"),
    (9, 7_103, "3 take 1", "3 payload 6869"),
];

/// The port of every client.
const CLIENT: u16 = 9_000;

/// The signed topology and the administrator's key, as two lines.
fn topology(alloc: Global) -> Result<Vec<u8>, Fail> {
    let answered = answer(alloc, &Offline::Topology, DRAFT.as_bytes(), false)?;
    Ok(Vec::from_slice(alloc, answered.text.as_slice())?)
}

/// The configuration of a node.
fn configuration(
    alloc: Global,
    signed: &[u8],
    own: &str,
    peers: &[(&str, &str)],
) -> Result<String, Fail> {
    let (document, admin) = str::from_utf8(signed)?.split_once('\n').ok_or("no line")?;
    let admin = admin.trim_end();
    let mut text = format!(in alloc;
        "{own}buffer = 16\nstore = 64\nadmin = \"{admin}\"\ntopology = \"{document}\"\n"
    )?;
    for (peer, key) in peers {
        let peer = format!(in alloc; "[[peer]]\n{peer}{key}")?;
        text.push_str(peer.as_str())?;
    }
    Ok(text)
}

/// The three daemons at their start.
fn daemons(alloc: Global) -> Result<Vec<Host>, Fail> {
    let signed = topology(alloc)?;
    let mut hosts = Vec::new(alloc);
    for (own, peers) in NODES {
        let config = configuration(alloc, &signed, own, peers)?;
        hosts.push(Host::start(alloc, config)?)?;
    }
    Ok(hosts)
}

/// Lets a datagram come to the daemon that has this port on this side.
fn deliver(hosts: &mut [Host], datagram: Datagram) -> Result<(), Fail> {
    let (side, to) = (datagram.side, datagram.to);
    if let Some(host) = hosts.iter_mut().find(|host| host.wire.port(side) == to) {
        host.wire.coming.push(datagram)?;
    }
    Ok(())
}

/// Asks what is asked in this round.
fn ask(alloc: Global, round: u32, hosts: &mut [Host]) -> Result<(), Fail> {
    for (at, to, request, _) in ASKED {
        if at == round {
            let datagram = Datagram {
                side: Side::Client,
                from: CLIENT,
                to,
                bytes: Vec::from_slice(alloc, request.as_bytes())?,
            };
            deliver(hosts, datagram)?;
        }
    }
    Ok(())
}

/// One turn of each daemon. What they sent is added.
fn make_turns(alloc: Global, hosts: &mut [Host], sent: &mut Vec<Datagram>) -> Result<(), Fail> {
    for host in hosts {
        host.turn(alloc)?;
        sent.append(&mut host.wire.sent)?;
    }
    Ok(())
}

/// Hands on what was sent: a frame to its neighbour, a reply to its client.
fn hand_on(
    hosts: &mut [Host],
    sent: Vec<Datagram>,
    replies: &mut Vec<Datagram>,
) -> Result<(), Fail> {
    for datagram in sent {
        match datagram.side {
            Side::Client => replies.push(datagram)?,
            Side::Overlay => deliver(hosts, datagram)?,
        }
    }
    Ok(())
}

/// All rounds. What the clients were told is added.
fn make_rounds(alloc: Global, hosts: &mut [Host], replies: &mut Vec<Datagram>) -> Result<(), Fail> {
    for round in 0..ROUNDS {
        let mut sent = Vec::new(alloc);
        ask(alloc, round, hosts)?;
        make_turns(alloc, hosts, &mut sent)?;
        hand_on(hosts, sent, replies)?;
    }
    Ok(())
}

/// Whether the clients were told what is wanted.
fn are_wanted(replies: &[Datagram]) -> bool {
    replies.len() == ASKED.len()
        && replies.iter().zip(ASKED).all(|(reply, asked)| reply.bytes.as_slice()
            == asked.3.as_bytes())
}

#[test]
fn a_message_is_taken_at_the_other_end_of_a_line(rt: HostRuntime) -> Result<(), Fail> {
    let alloc = rt.alloc();
    let mut replies = Vec::new(alloc);
    let mut hosts = daemons(alloc)?;
    make_rounds(alloc, &mut hosts, &mut replies)?;
    assert!(rt; are_wanted(&replies));
    for host in hosts {
        assert!(rt; host.is_verified(alloc)?);
    }
    Ok(())
}
