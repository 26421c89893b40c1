// Journals of the first message whose effects were changed: the first event that breaks a promise is named.
use crate::stories::{FIRST_MESSAGE, journal_of, schedule_of};
use sp_audit::{AuditRefused, audit};
use std::alloc::Global;
use std::test::Fail;

/// What each event of the first message is answered, and the effect that says what was sent.
const REPLIES: &str = "\
1 accepted 1
+ signed 020103000000000000000100026869
2 frame 1 76 f44da8597e91927d90384b9b270bb3b6f6d53c433938c099dec9df394c80d3bf
3 learned 1
4 frame 1 4871 9406c1cf63c0fbc45a4a3f5def5220ce6a5610866931bc1f9815399f93c8ceec
5 fresh rel:new
6 frame 1 76 3a319bfc8c16cdf2d6f40aaa8f3db39780c689fd6ef32643df6777b75a7d6435
7 learned 1
8 empty
9 frame 1 4871 2bf908c028e0d37d53f0f469b9dcb947704dc422e4abed31abf4e88a63a5bb03
10 fresh rel:new
11 payload 6869";

/// Rows of the event that breaks a promise first, or 0, of how many messages are delivered and how many of priority; and then of each effect with its event.
/// Node 1 acts at events 1, 3 and 4, node 2 at 2, 5, 7 and 9, node 3 at the others, and a place holds 4 entries.
const ROWS: &str = "\
0 1 0;10 delivered rel 1 1 6869
10 1 0;10 delivered rel 1 1 686a
10 1 0;10 delivered rel 1 1 68
10 1 0;10 delivered rel 1 2 6869
10 1 0;10 delivered rel 2 1 6869
3 2 0;3 delivered rel 1 1 6869;10 delivered rel 1 1 6869
11 2 0;10 delivered rel 1 1 6869;11 delivered rel 1 1 6869
10 2 0;10 delivered rel 1 1 6869;10 delivered rel 1 1 6869
5 2 0;5 delivered rel 3 1 6869;10 delivered rel 1 1 6869
0 1 0;5 ended 1 3;5 ended 3 1;10 ended 1 3;10 delivered rel 1 1 6869
0 0 2;5 delivered prio 1 1 00;10 delivered prio 1 1 00
0 0 2;5 delivered prio 1 1 00;7 delivered prio 3 1 00
0 0 3;5 delivered prio 1 2 00;7 delivered prio 1 1 00;9 delivered prio 1 3 00
7 0 2;5 delivered prio 1 1 00;7 delivered prio 1 1 00
9 0 3;5 delivered prio 1 2 00;7 delivered prio 1 1 00;9 delivered prio 1 1 01
0 0 0;5 stored 0 1 1 1 5;5 stored 0 2 1 2 5;7 stored 0 3 1 3 5;9 stored 0 4 1 4 5
9 0 0;5 stored 0 1 1 1 5;5 stored 0 2 1 2 5;7 stored 0 3 1 3 5;7 stored 0 4 1 4 5;9 stored 0 5 1 5 5
0 0 0;5 stored 0 1 1 1 5;5 stored 0 2 1 2 5;7 stored 1 3 1 3 5;7 stored 0 4 1 4 5;9 stored 0 5 1 5 5
0 0 0;5 stored 0 1 1 1 5;5 stored 0 2 1 2 5;7 stored 0 3 1 3 5;7 stored 0 4 1 4 5;10 stored 0 5 1 5 5
0 0 0;5 stored 0 1 1 1 5;5 stored 0 2 1 2 5;7 stored 0 3 1 3 5;7 stored 0 4 1 4 5;9 stored 0 5 1 5 5;9 gone 0 1 evicted
9 0 0;5 stored 0 1 1 1 5;5 stored 0 2 1 2 5;7 stored 0 3 1 3 5;7 stored 0 4 1 4 5;9 stored 0 5 1 5 5;9 gone 0 2 evicted
9 0 0;5 stored 0 1 1 1 5;5 stored 0 2 1 2 5;7 stored 0 3 1 3 5;7 stored 0 4 1 4 5;9 stored 0 5 1 5 4;9 gone 0 1 evicted
9 0 0;5 stored 0 1 1 1 5;5 stored 0 2 1 2 5;7 stored 0 3 1 3 5;7 stored 0 4 1 4 5;9 gone 0 1 evicted;9 stored 0 5 1 5 5
9 0 0;5 stored 0 1 1 1 5;5 stored 0 2 1 2 5;7 stored 0 3 1 3 5;7 stored 0 4 1 4 5;9 stored 0 5 1 5 5;9 gone 0 9 evicted
0 0 0;5 stored 0 1 1 1 5;5 stored 0 2 1 2 5;7 stored 0 3 3 1 9;7 stored 0 4 3 2 9;9 stored 0 5 1 5 5;9 gone 0 1 evicted
9 0 0;5 stored 0 1 1 1 5;5 stored 0 2 1 2 5;7 stored 0 3 3 1 1;7 stored 0 4 3 2 1;9 stored 0 5 1 5 5;9 gone 0 3 evicted
0 0 0;5 gone 0 7 taken
0 0 0;5 gone 0 7 acked;7 gone 0 7 expired
5 0 0;5 gone 0 7 evicted
0 0 0;2 gone 0 1 taken;5 stored 0 1 1 1 5;5 stored 0 2 1 2 5;7 stored 0 3 1 3 5;7 stored 0 4 1 4 5;9 stored 0 5 1 5 5
9 0 0;2 gone 1 1 taken;5 stored 0 1 1 1 5;5 stored 0 2 1 2 5;7 stored 0 3 1 3 5;7 stored 0 4 1 4 5;9 stored 0 5 1 5 5";

/// The journal of a row.
fn journal_text(alloc: Global, row: &str) -> Result<String, Fail> {
    let mut text = String::from_str(alloc, "journal 1\n")?;
    for reply in REPLIES.lines() {
        text.push_str(reply)?;
        text.push_str("\n")?;
        push_effects(&mut text, row, reply)?;
    }
    let mut counts = row.split(';').next().ok_or("no counts")?.split(' ').skip(1);
    let (delivered, priority) = (
        counts.next().ok_or("no count")?,
        counts.next().ok_or("no count")?,
    );
    let summary = format!(in alloc;
        "summary events 11 sent 1 delivered {delivered} priority {priority} frames 4\n"
    )?;
    text.push_str(summary.as_str())?;
    Ok(text)
}

/// The effects of the event of this reply.
fn push_effects(text: &mut String, row: &str, reply: &str) -> Result<(), Fail> {
    let number = reply.split(' ').next();
    for told in row.split(';').skip(1) {
        let (event, effect) = told.split_once(' ').ok_or("no effect")?;
        if number == Some(event) {
            text.push_str("+ ")?;
            text.push_str(effect)?;
            text.push_str("\n")?;
        }
    }
    Ok(())
}

/// The event of a row's journal that breaks a promise first, or 0.
fn first_broken(alloc: Global, row: &str) -> Result<u32, Fail> {
    let (scenario, events) = schedule_of(alloc, FIRST_MESSAGE)?;
    let journal = journal_of(alloc, journal_text(alloc, row)?.as_str())?;
    if events.len() != journal.as_slice().len() {
        return Err("not an entry for each event".into());
    }
    let found = audit(alloc, &scenario, events.as_slice(), journal.as_slice());
    event_of(found)
}

/// The event of a finding, or 0 for none.
fn event_of(found: Result<(), AuditRefused>) -> Result<u32, Fail> {
    match found {
        Ok(()) => Ok(0),
        Err(AuditRefused::Broken { event }) => Ok(event),
        Err(_) => Err("no memory".into()),
    }
}

#[test]
fn the_first_broken_promise_is_named(rt: HostRuntime) -> Result<(), Fail> {
    for row in ROWS.lines() {
        let wanted: u32 = row.split(' ').next().ok_or("no row")?.parse()?;
        let found = first_broken(rt.alloc(), row)?;
        assert!(rt; found == wanted, "{row}: {found}");
    }
    Ok(())
}
