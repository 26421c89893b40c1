// The keys of each kind of table, in the order in which they are judged: its name, whether it may be absent, what its value may be.
ghost use Rattle.std.specs.Prelude.{◌≡◌, ◌++◌, map};
ghost use Rattle.sp_config.specs.Keys.{draft_keys, edge_keys, keys_of, node_keys, own_keys, peer_keys, row_of, running_keys};

use sp_base::{FORMAT_1, FORMAT_2, MAX_BUFFER, MAX_STORE};

/// The five kinds of tables.
#[derive(Clone, Copy)]
pub enum Form {
    Config,
    Peer,
    Draft,
    Node,
    Edge,
}

/// What the rest of a text says of the ranges in it: its format, and the greatest index.
#[derive(Clone, Copy)]
pub struct Ranges {
    pub format: u8,
    pub index: u64,
}

/// What the value of a key may be.
#[derive(Clone, Copy)]
pub enum Shape {
    /// An integer between these two.
    Number(u64, u64),
    /// 5 or 10.
    Height,
    /// The index from which a signer goes on: an integer from 0 to the greatest index of the text.
    Index,
    /// The id of a node: an integer from 1 to the greatest id of the text's format.
    Id,
    /// Lower-case hexadecimal digits of so many bytes.
    Digits(usize),
    /// Lower-case hexadecimal digits of any bytes.
    AnyDigits,
    /// An array of tables.
    Tables,
}

/// A key of a table.
#[derive(Clone, Copy)]
pub enum Key {
    /// One that must be there.
    Must(&'static str, Shape),
    /// One that may be absent.
    May(&'static str, Shape),
}

impl Key {
    pub fn name(self) -> &'static str
        ensures { result.now ≡ (row_of self).name }
    {
        match self {
            Key::Must(name, _) | Key::May(name, _) => name,
        }
    }

    pub fn shape(self) -> Shape
        ensures { result ≡ (row_of self).shape }
    {
        match self {
            Key::Must(_, shape) | Key::May(_, shape) => shape,
        }
    }
}

/// The keys of a kind of table, in two parts, of which the second may be empty.
pub fn keys_of(form: Form) -> (&'static [Key], &'static [Key])
    ensures { map row_of result.0.now ++ map row_of result.1.now ≡ keys_of form }
{
    match form {
        Form::Config => (own_keys(), running_keys()),
        Form::Peer => (peer_keys(), &[]),
        Form::Draft => (draft_keys(), &[]),
        Form::Node => (node_keys(), &[]),
        Form::Edge => (edge_keys(), &[]),
    }
}

/// Who a daemon is, and where it listens.
fn own_keys() -> &'static [Key]
    ensures { map row_of result.now ≡ own_keys }
{
    &[
        Key::Must("node", Shape::Id),
        Key::Must("seed", Shape::Digits(32)),
        Key::Must("admin", Shape::Digits(60)),
        Key::Must("topology", Shape::AnyDigits),
        Key::Must("port", Shape::Number(1, u16::MAX as u64)),
        Key::Must("client_port", Shape::Number(1, u16::MAX as u64)),
    ]
}

/// Its bounds, and its neighbours.
fn running_keys() -> &'static [Key]
    ensures { map row_of result.now ≡ running_keys }
{
    &[
        Key::May("buffer", Shape::Number(1, MAX_BUFFER as u64)),
        Key::May("store", Shape::Number(1, MAX_STORE as u64)),
        Key::May("peer", Shape::Tables),
    ]
}

fn peer_keys() -> &'static [Key]
    ensures { map row_of result.now ≡ peer_keys }
{
    &[
        Key::Must("id", Shape::Id),
        Key::Must("port", Shape::Number(1, u16::MAX as u64)),
        Key::Must("key", Shape::Digits(32)),
    ]
}

fn draft_keys() -> &'static [Key]
    ensures { map row_of result.now ≡ draft_keys }
{
    &[
        Key::May("format", Shape::Number(FORMAT_1 as u64, FORMAT_2 as u64)),
        Key::Must("version", Shape::Number(0, u32::MAX as u64)),
        Key::Must("height", Shape::Height),
        Key::Must("admin_seed", Shape::Digits(32)),
        Key::Must("admin_index", Shape::Index),
        Key::Must("node", Shape::Tables),
        Key::Must("edge", Shape::Tables),
    ]
}

fn node_keys() -> &'static [Key]
    ensures { map row_of result.now ≡ node_keys }
{
    &[
        Key::Must("id", Shape::Id),
        Key::Must("seed", Shape::Digits(32)),
    ]
}

fn edge_keys() -> &'static [Key]
    ensures { map row_of result.now ≡ edge_keys }
{
    &[
        Key::Must("a", Shape::Number(0, u8::MAX as u64)),
        Key::Must("b", Shape::Number(0, u8::MAX as u64)),
        Key::Must("weight", Shape::Number(0, u32::MAX as u64)),
    ]
}
