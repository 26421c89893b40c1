// Questions over a wire in memory: what comes in its turns, and which of it is the reply.
use sp_outside::{Coming, MemoryWire, WirePlan};
use sp_service_ask::{AskRefused, Question, ask};
use std::alloc::Global;
use std::test::Fail;

/// On each line the call that fails first, the turns, the request to port 47101, what comes turn by turn (a dash for nothing), and the
/// reply. Where there is none, a word says why.
const ROWS: &str = "none|1|1 open|47101 1 opened|1 opened
none|4|2 send 3 6869|47101 2 accepted 1|2 accepted 1
none|3|2 open|-;-;47101 2 opened|2 opened
none|2|2 open|-;-;47101 2 opened|unanswered
none|3|2 open|-|unanswered
none|2|2 open|47102 2 opened;47101 2 badend|2 badend
none|1|2 open|47102 2 opened;47101 2 badend|unanswered
none|2|2 open|47101 1 opened;47101 2 opened|2 opened
none|9|2 open|47101 22 opened;47101 20 opened;47101 2;47101 02 opened;47101  2 opened;47101 |unanswered
none|9|22 open|47101 2 opened;47101 222 opened;47101 22 opened|22 opened
none|9|9223372036854775807 close|47101 9223372036854775807 closed|9223372036854775807 closed
none|2|2 open|47101 2 ;47101 2 opened|2 
none|2|2 takeprio|47101 2 empty;47101 2 payload 3 1 00|2 empty
none|1|2 open|47101 0 badrequest|unanswered
open|3|2 open|47101 2 opened|unopened
send|1|2 open|47101 2 opened|2 opened
receive|1|2 open|47101 2 opened|unanswered
receive|2|2 open|47101 2 opened|2 opened
none|1|2 opened|47101 2 opened|norequest
none|1|2  open|47101 2 opened|norequest
none|1||47101 2 opened|norequest
none|1|0 open|47101 0 opened|norequest
open|1|2 opened|47101 2 opened|norequest";

/// Which call fails.
fn plan_of(failing: &str) -> WirePlan<'static> {
    let first: &'static [u64] = &[0];
    let mut plan = WirePlan::none();
    match failing {
        "open" => plan.opens = first,
        "send" => plan.sends = first,
        "receive" => plan.receives = first,
        _ => {}
    }
    plan
}

/// What one receive gives.
fn coming(text: &str) -> Result<Option<Coming<'_>>, Fail> {
    if text == "-" {
        return Ok(None);
    }
    let (port, bytes) = text.split_once(' ').ok_or("no bytes")?;
    Ok(Some(Coming {
        port: port.parse()?,
        bytes: bytes.as_bytes(),
    }))
}

/// The word of a refusal.
fn word_of(refused: AskRefused) -> &'static str {
    match refused {
        AskRefused::NoRequest => "norequest",
        AskRefused::Unopened => "unopened",
        AskRefused::Unanswered => "unanswered",
        AskRefused::Memory => "memory",
    }
}

/// A row's fields.
#[derive(Drop)]
struct Row<'a> {
    failing: &'a str,
    turns: u32,
    request: &'a str,
    comes: &'a str,
    wanted: &'a str,
}

fn row_of(line: &str) -> Result<Row<'_>, Fail> {
    let mut fields = line.split('|');
    Ok(Row {
        failing: fields.next().unwrap_or(""),
        turns: fields.next().unwrap_or("").parse()?,
        request: fields.next().unwrap_or(""),
        comes: fields.next().unwrap_or(""),
        wanted: fields.next().unwrap_or(""),
    })
}

/// What comes turn by turn.
fn all_coming(alloc: Global, texts: &str) -> Result<Vec<Option<Coming<'_>>>, Fail> {
    let mut all = Vec::new(alloc);
    for text in texts.split(';') {
        all.push(coming(text)?)?;
    }
    Ok(all)
}

/// Whether the question of a row has its reply, or none for the reason that the row says.
fn is_answered(alloc: Global, row: &Row<'_>) -> Result<bool, Fail> {
    let client = all_coming(alloc, row.comes)?;
    let mut wire = MemoryWire::new(alloc, &[], client.as_slice(), plan_of(row.failing));
    let question = Question {
        port: 47_101,
        local: 47_201,
        turns: row.turns,
        request: row.request.as_bytes(),
    };
    Ok(match ask(alloc, &question, &mut wire) {
        Ok(reply) => reply.as_slice() == row.wanted.as_bytes(),
        Err(refused) => word_of(refused) == row.wanted,
    })
}

#[test]
fn the_first_reply_of_the_number_and_the_port_is_given(rt: HostRuntime) -> Result<(), Fail> {
    for line in ROWS.lines() {
        assert!(rt; is_answered(rt.alloc(), &row_of(line)?)?, "{line}");
    }
    Ok(())
}
