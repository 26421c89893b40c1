// Complete rounds of the two stories, counted by hand, and nodes that are no path.
use crate::stories::{FIRST_MESSAGE, ROUND, schedule_of};
use sp_audit::{AuditRefused, flow_count, rounds};
use sp_base::NodeId;
use std::alloc::Global;
use std::test::Fail;

/// Rows of the story, the event from which on rounds count, the nodes, and how many rounds of them follow one after another. `no` where they are no path.
const ROWS: &str = "\
first|2|1 2 3|1
first|1|1 2 3|1
first|3|1 2 3|0
first|12|1 2 3|0
first|400|1 2 3|0
first|2|3 2 1|0
first|2|1 2|0
first|2|2 3|0
first|1|1|no
first|1||no
first|1|1 3|no
first|1|1 2 1|no
first|1|1 2 9|no
first|1|0 1|no
round|2|1 4 3|1
round|1|1 4 3|1
round|4|1 4 3|0
round|59|1 4 3|0
round|2|1 2 3|no
round|2|1 4 2|no
round|2|1 3|no
round|2|4 1 4|no";

fn story(word: &str) -> &'static str {
    match word {
        "first" => FIRST_MESSAGE,
        _ => ROUND,
    }
}

fn path_of(alloc: Global, words: &str) -> Result<Vec<NodeId>, Fail> {
    let mut path = Vec::new(alloc);
    for word in words.split(' ').filter(|word| !word.is_empty()) {
        path.push(NodeId(word.parse()?))?;
    }
    Ok(path)
}

/// How many rounds there are, or None where the nodes are no path.
fn counted(alloc: Global, name: &str, from: usize, nodes: &str) -> Result<Option<u32>, Fail> {
    let (scenario, events) = schedule_of(alloc, story(name))?;
    let path = path_of(alloc, nodes)?;
    if from == 0 {
        return Err("events are counted from 1".into());
    }
    let found = rounds(&scenario, events.as_slice(), path.as_slice(), from);
    count_of(found)
}

/// The count, or None for the refusal of nodes that are no path.
fn count_of(found: Result<u32, AuditRefused>) -> Result<Option<u32>, Fail> {
    match found {
        Ok(count) => Ok(Some(count)),
        Err(AuditRefused::NotPath) => Ok(None),
        Err(_) => Err("another refusal".into()),
    }
}

#[test]
fn complete_rounds_are_counted(rt: HostRuntime) -> Result<(), Fail> {
    for row in ROWS.lines() {
        let mut fields = row.split('|');
        let name = fields.next().unwrap_or("");
        let from: usize = fields.next().unwrap_or("").parse()?;
        let nodes = fields.next().unwrap_or("");
        let wanted: Option<u32> = fields.next().unwrap_or("").parse().ok();
        assert!(rt; counted(rt.alloc(), name, from, nodes)? == wanted, "{row}");
    }
    Ok(())
}

#[test]
fn a_sweep_has_as_many_frames_as_flows_may_wait(rt: HostRuntime) -> Result<(), Fail> {
    let (scenario, events) = schedule_of(rt.alloc(), FIRST_MESSAGE)?;
    assert!(rt; flow_count(&scenario, events.as_slice()) == 1);
    let (scenario, events) = schedule_of(rt.alloc(), ROUND)?;
    assert!(rt; flow_count(&scenario, events.as_slice()) == 7);
    Ok(())
}
