// What no node asks of a store: the removal of an entry that can't be in flight, and whether an entry is there.
ghost use Rattle.std.specs.Prelude.{◌≡◌, IfOk};
ghost use Rattle.sp_msg.specs.Bodies.{HasGoodFields};

use hex::decode;
use sp_msg::{BodyRef, Kept, keep};
use sp_store::{Entry, Put, Store};
use std::alloc::Global;
use std::process::Abort;
use std::test::Fail;

/// Calls of a store of capacity 16 with their answers: the first rows of a program outside the project that change it.
const REMOVED: &str = "\
put 16 1 2 4|1 -
put 1 1 1 4|2 -
put 4 1 4 8|3 -
remove 3|3
put 1 2 2 8|4 -
put 1 3 4 6|5 -
put 1 4 1 0|6 -
put 2 1 3 7|7 -
put 2 2 3 5|8 -
put 1 5 3 6|9 -
put 1 6 2 5|10 -
put 9 1 2 2|11 -
put 4 2 3 8|12 -
put 3 1 3 5|13 -
put 2 3 4 3|14 -
put 16 2 2 8|15 -
put 1 7 2 3|16 -
put 4 3 2 8|17 -
put 2 4 4 2|18 2
put 4 4 3 2|19 6
put 3 2 1 1|20 4
put 1 8 3 8|21 10
remove 19|19
put 4 5 4 2|22 -
put 1 9 1 1|23 23
put 2 5 3 4|24 7
put 1 10 4 7|25 16
put 1 11 1 0|26 26
remove 20|20";

/// Calls of a store of capacity 4, by docs/RULES.md, under "Stores".
const FOUND: &str = "\
put 1 1 5 0|1 -
put 1 2 5 0|2 -
put 2 1 1 0|3 -
put 2 2 2 0|4 -
put 2 3 3 0|5 3
put 2 4 4 0|6 4
put 2 5 5 0|7 5
put 2 6 6 0|8 6
get 7|7
get 6|-";

/// The fields of a priority message to node 5, without mask and payload: source, number, priority, and expiry.
#[derive(Clone, Copy, Debug)]
struct Fields {
    src: u8,
    seq: u64,
    prio: u8,
    expiry: u64,
}

/// The message of these fields, without a signature.
fn message(alloc: Global, fields: Fields) -> Result<Kept, Fail>
    ensures fields { IfOk result (λ kept. HasGoodFields kept.body) }
{
    let Fields {
        src,
        seq,
        prio,
        expiry,
    } = fields;
    let digits = format!(in alloc;
        "01{src:02x}05{seq:016x}{prio:02x}{expiry:016x}{:032x}0000",
        0
    )?;
    let bytes = decode(alloc, digits.as_str())?;
    let body = BodyRef::read(&bytes)?;
    Ok(keep(alloc, &body, b"")?)
}

fn fields_of_entry(words: &str) -> Result<Fields, Fail> {
    let mut words = words.split_whitespace();
    Ok(Fields {
        src: words.next().ok_or("no source")?.parse()?,
        seq: words.next().ok_or("no number")?.parse()?,
        prio: words.next().ok_or("no priority")?.parse()?,
        expiry: words.next().ok_or("no expiry")?.parse()?,
    })
}

fn id_of(entry: Option<&Entry>, alloc: Global) -> Result<String, Fail> {
    Ok(match entry {
        Some(entry) => format!(in alloc; "{}", entry.id)?,
        None => "-".to_string(alloc)?,
    })
}

fn put(alloc: Global, store: &mut Store, kept: Kept) -> Result<String, Fail> {
    if store.last() >= 1 << 63 {
        return Err("no id is left".into());
    }
    Ok(match store.put(kept) {
        Put::Stored { id } => format!(in alloc; "{id} -")?,
        Put::StoredAfter { id, evicted } => format!(in alloc; "{id} {}", evicted.id)?,
    })
}

/// What a store answers to a message of these words.
fn put_of(alloc: Global, store: &mut Store, words: &str) -> Result<String, Fail> {
    let fields = fields_of_entry(words)?;
    put(alloc, store, message(alloc, fields)?)
}

/// What a store answers to the call of this name and these words.
fn answer(alloc: Global, store: &mut Store, name: &str, words: &str) -> Result<String, Fail> {
    match name {
        "put" => put_of(alloc, store, words),
        "remove" => id_of(store.remove(words.parse()?).as_ref(), alloc),
        "get" => id_of(store.get(words.parse()?), alloc),
        _ => Err("another call".into()),
    }
}

/// Each call of these rows has its answer.
fn runs(rt: &(impl Abort + AllocGlobal), capacity: u16, rows: &str) -> Result<(), Fail> {
    let alloc = rt.alloc();
    let mut store = Store::new(alloc, capacity)?;
    for row in rows.lines() {
        let (call, expected) = row.split_once('|').ok_or("no answer")?;
        let (name, words) = call.split_once(' ').unwrap_or((call, ""));
        let found = answer(alloc, &mut store, name, words)?;
        assert_eq!(rt; found.as_str(), expected, "{call}");
    }
    Ok(())
}

#[test]
fn any_entry_can_be_removed(rt: HostRuntime) -> Result<(), Fail> {
    runs(&rt, 16, REMOVED)
}

#[test]
fn an_entry_is_there_until_it_goes(rt: HostRuntime) -> Result<(), Fail> {
    runs(&rt, 4, FOUND)
}
