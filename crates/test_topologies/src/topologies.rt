// Topology documents held against rows that a reader outside the project gave: good ones, refused ones, and each cut.
ghost use Rattle.std.specs.Prelude.{IfOk};
ghost use Rattle.sp_topology.specs.Ranges.{IsTopology};

use hex::decode;
use sha2::{Digest, Sha256};
use sp_base::NodeId;
use sp_topology::{Topology, TopologyRefused};
use std::alloc::Global;
use std::fmt::Write;
use std::process::Abort;
use std::test::Fail;

/// A document of three nodes in a line, with keys that another program made.
fn document() -> &'static str {
    "\
4d544d5701000000010503\
01000000020000000500000003a35a52528a685b19928b81c16c10137fcafba0f182baa295984002084ebde385b25cf54e9f5c54fbe1ca2893a24acc11\
020000000200000005000000039f7f0f08d24e86a12c3d3f3b44e67746a23dbf0fb23145a5d2970f226bd57ac8a7061fa3d964b8177d7a0f0eab1277ee\
03000000020000000500000003de8970db65bfd18ecd3e0055c8e92befb89861b14c3d2c33b39f8052642e2215b75e752af05c2cdd965152858b2d41bd\
000201020000000a02030000000a"
}

/// The SHA-256 of the largest document: 16 nodes that are all joined.
const LARGEST_HASH: &str = "010b94668cb0acb518720b8804a061c84e84594874de8661e08dbb2184962049";

/// Rows of the refusal, why, and the bytes. A key stands for its first 12 bytes and 48 times the id: `(01)` is 48 bytes 01, `[01]` a good
/// key with them, and `*` is all before the edges of a good document with the nodes 1, 2 and 4.
/// These are wrong in the name, the format, the height or the node count.
fn bad_fronts() -> &'static str {
    "\
Magic|another name|4d544d580100000001050301[01]02[02]04[04]000201020000000a020400000001
Format|format 0|4d544d570000000001050301[01]02[02]04[04]000201020000000a020400000001
Format|format 3|4d544d570300000001050301[01]02[02]04[04]000201020000000a020400000001
Height|height 0|4d544d570100000001000301[01]02[02]04[04]000201020000000a020400000001
Height|height 4|4d544d570100000001040301[01]02[02]04[04]000201020000000a020400000001
Height|height 6|4d544d570100000001060301[01]02[02]04[04]000201020000000a020400000001
Height|height 11|4d544d5701000000010b0301[01]02[02]04[04]000201020000000a020400000001
Height|height 255|4d544d570100000001ff0301[01]02[02]04[04]000201020000000a020400000001
TooFew|no node|4d544d570100000001050001[01]02[02]04[04]000201020000000a020400000001
TooFew|one node|4d544d570100000001050101[01]02[02]04[04]000201020000000a020400000001
TooMany|seventeen nodes|4d544d570100000001051101[01]02[02]04[04]000201020000000a020400000001
TooMany|255 nodes|4d544d57010000000105ff01[01]02[02]04[04]000201020000000a020400000001"
}

/// The same, wrong in a node.
fn bad_nodes() -> &'static str {
    "\
Order|node 0|4d544d570100000001050300[01]02[02]04[04]000201020000000a020400000001
Order|node 17|4d544d570100000001050301[01]02[02]11[01]000201020000000a020400000001
Order|a node below the one before|4d544d570100000001050302[02]01[01]04[04]000201020000000a020400000001
Twice|a node twice|4d544d570100000001050301[01]01[01]04[04]000201020000000a020400000001
Key|a key of one level|4d544d570100000001050301[01]02000000010000000500000003(02)04[04]000201020000000a020400000001
Twice|the same, and twice|4d544d570100000001050301[01]01000000010000000500000003(02)04[04]000201020000000a020400000001
Key|a key of the other height|4d544d570100000001050301[01]02000000020000000600000003(02)04[04]000201020000000a020400000001
Key|a key of w = 8|4d544d570100000001050301[01]02000000020000000500000004(02)04[04]000201020000000a020400000001
Key|a key of many levels|4d544d570100000001050301[01]02010000020000000500000003(02)04[04]000201020000000a020400000001"
}

/// The same, wrong in an edge, or the edge count.
fn bad_edges() -> &'static str {
    "\
TooMany|121 edges|*007901020000000a020400000001 and 800 bytes 00
Loop|an edge to itself|*000101010000000a
Loop|to itself, and no node|*000105050000000a
Order|the higher end first|*000102010000000a
Order|an edge below the one before|*000202040000000101020000000a
Twice|an edge twice|*000201020000000a01020000000a
Twice|twice, of weight 0|*000201020000000a010200000000
Unknown|an end that is no node|*000101050000000a
Unknown|node 0 as an end|*000100010000000a
Unknown|node 200 as an end|*000101c80000000a
Order|the higher end first, and no node|*0001c8010000000a
Weight|weight 0|*0001010200000000
Weight|weight 1,000,001|*00010102000f4241
Unknown|no node, of weight 0|*0001010500000000"
}

/// The same, wrong in something that comes before the end of a cut document.
fn bad_and_cut() -> &'static str {
    "\
Loop|to itself, and cut before its weight|*00010101
Short|cut inside its ends|*000101
Unknown|no node, and cut inside its weight|*00010105000000
Short|weight 0, cut|*00010102000000
Twice|a node twice, and cut before its key|4d544d570100000001050201[01]01
Order|node 0, and cut before its key|4d544d570100000001050201[01]00
Short|a bad key, cut|4d544d570100000001050201[01]020000000100000005000000030202020202020202020202020202020202020202020202020202020202020202020202020202020202020202020202"
}

/// Appends 48 times a byte, which stands before this bracket, and gives what follows.
fn push_key<'a>(
    alloc: Global,
    bytes: &mut Vec<u8>,
    part: &'a str,
    bracket: char,
) -> Result<&'a str, Fail> {
    let (byte, rest) = part.split_once(bracket).ok_or("no byte")?;
    for byte in &decode(alloc, byte)? {
        bytes.extend_from_slice(&[*byte; 48])?;
    }
    Ok(rest)
}

/// Appends the bytes of digits with keys among them.
fn push_digits(alloc: Global, bytes: &mut Vec<u8>, digits: &str) -> Result<(), Fail> {
    for (place, part) in digits.split('[').enumerate() {
        let mut part = part;
        if place > 0 {
            bytes.extend_from_slice(&decode(alloc, "000000020000000500000003")?)?;
            part = push_key(alloc, bytes, part, ']')?;
        }
        for (place, part) in part.split('(').enumerate() {
            let mut part = part;
            if place > 0 {
                part = push_key(alloc, bytes, part, ')')?;
            }
            bytes.extend_from_slice(&decode(alloc, part)?)?;
        }
    }
    Ok(())
}

/// The bytes of a row. So many bytes 00 may follow.
fn bytes_of(alloc: Global, written: &str) -> Result<Vec<u8>, Fail> {
    let (digits, zeros) = match written.split_once(" and ") {
        Some((digits, zeros)) => (digits, zeros.strip_suffix(" bytes 00").ok_or("no count")?),
        None => (written, "0"),
    };
    let mut bytes = Vec::new(alloc);
    match digits.strip_prefix("*") {
        Some(edges) => {
            push_digits(
                alloc,
                &mut bytes,
                "4d544d570100000001050301[01]02[02]04[04]",
            )?;
            push_digits(alloc, &mut bytes, edges)?;
        }
        None => push_digits(alloc, &mut bytes, digits)?,
    }
    let zeros: usize = zeros.parse()?;
    bytes.extend_from_slice(&vec![in alloc; 0; zeros]?)?;
    Ok(bytes)
}

/// The name of a refusal.
pub fn name_of(refused: TopologyRefused) -> &'static str {
    match refused {
        TopologyRefused::Short(_) => "Short",
        TopologyRefused::Magic => "Magic",
        TopologyRefused::Format => "Format",
        TopologyRefused::Height => "Height",
        TopologyRefused::TooFew => "TooFew",
        TopologyRefused::TooMany => "TooMany",
        TopologyRefused::Order => "Order",
        TopologyRefused::Twice => "Twice",
        TopologyRefused::Key => "Key",
        TopologyRefused::Loop => "Loop",
        TopologyRefused::Unknown => "Unknown",
        TopologyRefused::Weight => "Weight",
        TopologyRefused::Memory => "Memory",
    }
}

/// What the bytes are refused for.
pub fn refusal_of(alloc: Global, bytes: &[u8]) -> &'static str {
    match Topology::read(alloc, bytes) {
        Ok(_) => "read",
        Err(refused) => name_of(refused),
    }
}

/// The topology of the document.
fn three_nodes(alloc: Global) -> Result<Topology, Fail>
    ensures { IfOk result IsTopology }
{
    let (topology, _) = Topology::read(alloc, &decode(alloc, document())?)?;
    Ok(topology)
}

/// A topology in words: version, height, ids, and the edges with their weights.
fn described(alloc: Global, topology: &Topology) -> Result<String, Fail> {
    let mut text = String::new(alloc);
    write!(text, "{} {}", topology.version, topology.height.number())?;
    for node in topology.nodes.as_slice() {
        write!(text, " {}", node.id.0)?;
    }
    for edge in topology.edges.as_slice() {
        write!(text, " {}-{}-{}", edge.low.0, edge.high.0, edge.weight)?;
    }
    Ok(text)
}

#[test]
fn a_document_is_read(rt: HostRuntime) -> Result<(), Fail> {
    let alloc = rt.alloc();
    let topology = three_nodes(alloc)?;
    let found = described(alloc, &topology)?;
    assert_eq!(rt; found.as_str(), "1 5 1 2 3 1-2-10 2-3-10");
    Ok(())
}

#[test]
fn a_topology_is_written_as_its_document(rt: HostRuntime) -> Result<(), Fail> {
    let alloc = rt.alloc();
    let written = three_nodes(alloc)?.write(alloc)?;
    assert_eq!(rt;
        hex::encode(alloc, written.as_slice())?.as_str(),
        document()
    );
    Ok(())
}

#[test]
fn a_document_is_read_with_its_own_length(rt: HostRuntime) -> Result<(), Fail> {
    let alloc = rt.alloc();
    let mut bytes = decode(alloc, document())?;
    bytes.extend_from_slice(b"what comes after")?;
    let (_, length) = Topology::read(alloc, &bytes)?;
    assert_eq!(rt; length, 208);
    Ok(())
}

/// The neighbours of a node, each with its edge.
fn neighbours_of(alloc: Global, node: NodeId) -> Result<String, Fail> {
    let mut text = String::new(alloc);
    for (other, edge) in three_nodes(alloc)?.neighbours(alloc, node)? {
        write!(text, "{} by {}, ", other.0, edge.0)?;
    }
    Ok(text)
}

#[test]
fn neighbours_ascend_each_with_its_edge(rt: HostRuntime) -> Result<(), Fail> {
    let alloc = rt.alloc();
    let rows = "2 by 0, |1 by 0, 3 by 1, |2 by 1, |";
    for (place, row) in rows.split('|').enumerate() {
        let found = neighbours_of(alloc, NodeId(place as u8 + 1))?;
        assert_eq!(rt; found.as_str(), row, "{place}");
    }
    Ok(())
}

/// The edge between two nodes as a number, or 999.
fn edge_between(topology: &Topology, a: u8, b: u8) -> u16
    requires { IsTopology topology.now }
{
    match topology.edge_of(NodeId(a), NodeId(b)) {
        Some(edge) => edge.0,
        None => 999,
    }
}

#[test]
fn an_edge_is_found_by_its_ends(rt: HostRuntime) -> Result<(), Fail> {
    let topology = three_nodes(rt.alloc())?;
    assert_eq!(rt; edge_between(&topology, 1, 2), 0);
    assert_eq!(rt; edge_between(&topology, 3, 2), 1);
    assert_eq!(rt; edge_between(&topology, 1, 3), 999);
    assert_eq!(rt; edge_between(&topology, 1, 1), 999);
    assert_eq!(rt; edge_between(&topology, 4, 1), 999);
    Ok(())
}

#[test]
fn the_key_of_a_node_is_found(rt: HostRuntime) -> Result<(), Fail> {
    let topology = three_nodes(rt.alloc())?;
    for id in 0..5 {
        assert_eq!(rt;
            topology.key_of(NodeId(id)).is_some(),
            (1..4).contains(&id),
            "{id}"
        );
    }
    for node in topology.nodes.as_slice() {
        let key = topology.key_of(node.id).ok_or("no key")?;
        assert!(rt; key.as_slice() == node.key.as_slice());
    }
    Ok(())
}

#[test]
fn each_cut_of_a_document_is_short(rt: HostRuntime) -> Result<(), Fail> {
    let alloc = rt.alloc();
    let bytes = decode(alloc, document())?;
    for length in 0..bytes.len() {
        let cut = bytes.get(..length).ok_or("no cut")?;
        assert_eq!(rt; refusal_of(alloc, cut), "Short", "{length}");
    }
    Ok(())
}

/// Each row is refused as it says.
fn assert_refused(rt: &impl Abort, alloc: Global, rows: &str) -> Result<(), Fail> {
    for row in rows.lines() {
        let (refusal, rest) = row.split_once('|').ok_or("no reason")?;
        let (why, written) = rest.split_once('|').ok_or("no bytes")?;
        let bytes = bytes_of(alloc, written)?;
        assert_eq!(rt; refusal_of(alloc, &bytes), refusal, "{why}");
    }
    Ok(())
}

#[test]
fn a_bad_document_is_refused_at_its_first_fault(rt: HostRuntime) -> Result<(), Fail> {
    assert_refused(&rt, rt.alloc(), bad_fronts())?;
    assert_refused(&rt, rt.alloc(), bad_nodes())?;
    assert_refused(&rt, rt.alloc(), bad_edges())?;
    assert_refused(&rt, rt.alloc(), bad_and_cut())
}

/// The largest document, as its bytes.
fn largest(alloc: Global) -> Result<Vec<u8>, Fail> {
    let mut bytes = decode(alloc, "4d544d5701ffffffff0a10")?;
    for id in 1..17 {
        bytes.push(id)?;
        bytes.extend_from_slice(&decode(alloc, "000000020000000600000003")?)?;
        bytes.extend_from_slice(&vec![in alloc; id; 48]?)?;
    }
    bytes.extend_from_slice(b"\x00\x78")?;
    for low in 1..17 {
        for high in low + 1..17 {
            bytes.push(low)?;
            bytes.push(high)?;
            bytes.extend_from_slice(b"\x00\x0f\x42\x40")?;
        }
    }
    Ok(bytes)
}

#[test]
fn the_largest_document_has_these_bytes(rt: HostRuntime) -> Result<(), Fail> {
    let alloc = rt.alloc();
    let hash = Sha256::digest(&largest(alloc)?);
    assert_eq!(rt; hex::encode(alloc, hash)?.as_str(), LARGEST_HASH);
    Ok(())
}

#[test]
fn the_largest_document_is_read_and_written(rt: HostRuntime) -> Result<(), Fail> {
    let alloc = rt.alloc();
    let bytes = largest(alloc)?;
    let (topology, length) = Topology::read(alloc, &bytes)?;
    assert_eq!(rt; length, 1709);
    assert_eq!(rt; edge_between(&topology, 16, 15), 119);
    assert!(rt; topology.write(alloc)?.as_slice() == bytes.as_slice());
    Ok(())
}
