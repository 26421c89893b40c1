// A configuration: what an operator tells a daemon.
ghost use Rattle.std.specs.Prelude.{◌≡◌, IfOk, codes, map};
ghost use Rattle.toml.specs.Data.{get_member};
ghost use Rattle.toml.specs.View.{items_view, table_view};
ghost use Rattle.sp_config.specs.Good.{AreGood, IsGood};
ghost use Rattle.sp_config.specs.Keys.{own_keys, peer_keys, running_keys};
ghost use Rattle.sp_base.specs.Refusals.{as_refusal};
ghost use Rattle.sp_config.specs.Readings.{GivesInMemory, config_from, config_in, config_of, config_ranges, document_in, peer_of};
ghost use Rattle.sp_config.specs.Values.{bytes_at, number_at, number_or, tables_at, tables_of};

use crate::ConfigRefused;
use crate::digits::{bytes_of, format_said, key_of, seed_of};
use crate::keys::{Form, Ranges};
use crate::steps::{refuse, refuse_keys, table_of};
use crate::values::{array_at, byte_at, short_at, short_or, text_at};
use crate::walks::Wrong;
use sp_base::{Bytes, Listed, Memory, NodeId};
use sp_topology::{Topology, TopologyRefused};
use std::alloc::Global;
use toml::{Table, Value};

/// The bound of a flow's buffer where it isn't said.
const BUFFER: u16 = 16;

/// The bound of a store where it isn't said.
const STORE: u16 = 64;

/// No key of a configuration is an index, so the greatest index counts for none.
const NO_INDEX: u64 = 0;

/// What a daemon is told: who it is, the signed topology and its administrator's key, its ports, and its bounds.
/// A debug line says neither the seed nor a key.
#[derive(Drop)]
pub struct Config {
    pub node: NodeId,
    pub seed: [u8; 32],
    pub admin: [u8; 60],
    /// The signed document.
    pub topology: Bytes,
    pub port: u16,
    pub client_port: u16,
    /// 16 where it isn't said.
    pub buffer: u16,
    /// 64 where it isn't said.
    pub store: u16,
    pub peers: Listed<Peer>,
}

/// A neighbour: where it listens, and the key of the link, which no debug line says.
#[derive(Clone, Copy, PartialEq, Eq)]
pub struct Peer {
    pub id: NodeId,
    pub port: u16,
    pub key: [u8; 32],
}

/// The configuration that the text says, or the first refusal in the order of `ConfigRefused`.
pub fn read_config(alloc: Global, text: &str) -> Result<Config, ConfigRefused>
    ensures { GivesInMemory (λ config. config) result (config_of text.now) }
{
    let table = table_of(alloc, text)?;
    config_in(alloc, &table)
}

#[tactic(auto, unfolding(crate::specs::Readings::config_in))]
fn config_in(alloc: Global, table: &Table) -> Result<Config, ConfigRefused>
    ensures { GivesInMemory (λ config. config) result (config_in (table_view table.now)) }
{
    refuse_keys(alloc, Form::Config, table)?;
    let ranges = config_ranges(table);
    refuse(alloc, Wrong::Range(ranges), Form::Config, table)?;
    let document = bytes_of(alloc, text_at(table, "topology"))?;
    refuse_document(alloc, &document)?;
    Ok(config_from(alloc, ranges, table, document)?)
}

/// What a configuration says of the ranges in it: the format of its topology.
fn config_ranges(table: &Table) -> Ranges
    ensures { result ≡ config_ranges (table_view table.now) }
{
    Ranges {
        format: format_said(text_at(table, "topology")),
        index: NO_INDEX,
    }
}

/// Refuses bytes that don't begin with a document.
fn refuse_document(alloc: Global, document: &[u8]) -> Result<(), ConfigRefused>
    ensures { GivesInMemory (λ none. none) result (as_refusal ConfigRefused.Topology (document_in document.now)) }
{
    match Topology::read(alloc, document) {
        Ok(_) => Ok(()),
        Err(TopologyRefused::Memory) => Err(ConfigRefused::Memory),
        Err(refused) => Err(ConfigRefused::Topology(refused)),
    }
}

/// The values of a good table, with the document at its key `topology`.
fn config_from(
    alloc: Global,
    ranges: Ranges,
    table: &Table,
    document: Vec<u8>,
) -> Result<Config, Memory>
    requires own { IsGood own_keys ranges (table_view table.now) }
    requires running { IsGood running_keys ranges (table_view table.now) }
    requires peers { AreGood peer_keys ranges (tables_at (codes "peer") (table_view table.now)) }
    requires document { document.items ≡ bytes_at (codes "topology") (table_view table.now) }
    ensures { IfOk result (λ config. config ≡ config_from (table_view table.now)) }
{
    let peers = peers_of(alloc, ranges, array_at(table, "peer"))?;
    let (node, seed, admin) = own_of(ranges, table);
    let (port, client_port) = ports_of(ranges, table);
    let (buffer, store) = bounds_of(ranges, table);
    Ok(Config {
        node,
        seed,
        admin,
        topology: Bytes::from_vec(document),
        port,
        client_port,
        buffer,
        store,
        peers: Listed::from_vec(peers),
    })
}

#[tactic(auto, unfolding(crate::specs::Good::IsGood))]
fn own_of(ranges: Ranges, table: &Table) -> (NodeId, [u8; 32], [u8; 60])
    requires { IsGood own_keys ranges (table_view table.now) }
    ensures node { result.0.0 ≡ number_at (codes "node") (table_view table.now) }
    ensures seed { result.1 ≡ bytes_at (codes "seed") (table_view table.now) }
    ensures admin { result.2 ≡ bytes_at (codes "admin") (table_view table.now) }
{
    let node = NodeId(byte_at(table, "node"));
    let seed = seed_of(text_at(table, "seed"));
    let admin = key_of(text_at(table, "admin"));
    (node, seed, admin)
}

#[tactic(auto, unfolding(crate::specs::Good::IsGood))]
fn ports_of(ranges: Ranges, table: &Table) -> (u16, u16)
    requires { IsGood own_keys ranges (table_view table.now) }
    ensures port { result.0 ≡ number_at (codes "port") (table_view table.now) }
    ensures client_port { result.1 ≡ number_at (codes "client_port") (table_view table.now) }
{
    (short_at(table, "port"), short_at(table, "client_port"))
}

#[tactic(auto, unfolding(crate::specs::Good::IsGood))]
fn bounds_of(ranges: Ranges, table: &Table) -> (u16, u16)
    requires { IsGood running_keys ranges (table_view table.now) }
    ensures buffer { result.0 ≡ number_or 16 (get_member (codes "buffer") (table_view table.now)) }
    ensures store { result.1 ≡ number_or 64 (get_member (codes "store") (table_view table.now)) }
{
    (
        short_or(BUFFER, table, "buffer"),
        short_or(STORE, table, "store"),
    )
}

/// Each of these tables as a peer.
fn peers_of(alloc: Global, ranges: Ranges, values: &[Value]) -> Result<Vec<Peer>, Memory>
    requires { AreGood peer_keys ranges (tables_of (items_view values.now)) }
    ensures { IfOk result (λ peers. peers.items ≡ map peer_of (tables_of (items_view values.now))) }
{
    let mut peers = Vec::new(alloc);
    'peers: for value in values {
        if let Some(inside) = value.as_table() {
            peers.push(peer_of(ranges, inside))?;
        }
    }
    Ok(peers)
}

#[tactic(auto, unfolding(crate::specs::Good::IsGood))]
fn peer_of(ranges: Ranges, table: &Table) -> Peer
    requires { IsGood peer_keys ranges (table_view table.now) }
    ensures { result ≡ peer_of (table_view table.now) }
{
    let id = NodeId(byte_at(table, "id"));
    let port = short_at(table, "port");
    let key = seed_of(text_at(table, "key"));
    Peer { id, port, key }
}
