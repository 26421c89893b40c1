// What `check` says of sets that anybody may have made.
use crate::asked::graph_of;
use sp_base::{Listed, NodeId};
use sp_graph::Graph;
use sp_paths::{Paths, check};
use std::alloc::Global;
use std::process::Abort;
use std::test::Fail;

/// The trap graph. The cheapest path costs 3, and the cheapest two cost 10.
const TRAP: &str = "\
graph 1
nodes 4
edge 1 2 1
edge 1 3 4
edge 2 3 1
edge 2 4 4
edge 3 4 1
end
";

/// The ends, the paths, the cost, the potentials of the parts 1, 2-, 2+, 3-, 3+, 4, and the answer. All was reckoned by hand.
const SETS: &str = "\
1 4|1 2 4, 1 3 4|10|0 1 3 4 4 7|yes
1 4|1 3 4, 1 2 4|10|0 1 3 4 4 7|yes
1 4|1 2 3 4|3|0 1 1 2 2 3|yes
1 4|none|0|0 0 0 0 0 0|yes
1 4|none|0|-9223372036854775808 -9223372036854775808 -9223372036854775808 -9223372036854775808 -9223372036854775808 -9223372036854775808|yes
1 4|1 2 4, 1 3 4|10|9223372036854775800 9223372036854775801 9223372036854775803 9223372036854775804 9223372036854775804 9223372036854775807|yes
1 4|1 2 4, 1 3 4|10|-9223372036854775808 -9223372036854775807 -9223372036854775805 -9223372036854775804 -9223372036854775804 -9223372036854775801|yes
1 4|1 2 4, 1 3 4|10|-9223372036854775808 1 3 4 4 9223372036854775807|yes
1 4|1 2 4, 1 3 4|10|9223372036854775807 1 3 4 4 7|no
1 4|1 2 4, 1 3 4|10|0 1 3 4 4 -9223372036854775808|no
1 4|1 2 4, 1 3 4|10|0 9223372036854775807 3 4 4 7|no
1 4|1 2 4, 1 3 4|9|0 1 3 4 4 7|no
1 4|1 2 4, 1 3 4|11|0 1 3 4 4 7|no
1 4|1 2 4, 1 3 4|0|0 1 3 4 4 7|no
1 4|1 2 4, 1 3 4|10|0 1 3 4 4|no
1 4|1 2 4, 1 3 4|10|0 1 3 4 4 7 7|no
1 4|1 2 4, 1 3 4|10||no
1 4|1 2 4, 1 3 4|10|0 1 2 4 4 7|no
1 4|1 2 4, 1 3 4|10|0 1 3 5 5 7|no
1 4|1 2 4, 1 3 4|10|0 1 3 4 4 6|no
1 4|none|1|0 0 0 0 0 0|no
1 4|none|0|0 2 2 0 0 0|no
1 4|none|0|0 0 0 0 0|no
1 4|1 2 4|5|0 1 1 2 2 3|no
1 4|1 2 4|5|0 1 1 2 2 5|no
1 4|1 3 4|5|0 1 1 4 4 5|no
1 4||0|0 0 0 0 0 0|no
1 4|, 1 2 3 4|3|0 1 1 2 2 3|no
1 4|1|0|0 0 0 0 0 0|no
1 4|4|0|0 0 0 0 0 0|no
1 4|1 4|0|0 0 0 0 0 0|no
1 4|1 0 4|0|0 0 0 0 0 0|no
1 4|1 200 4|0|0 0 0 0 0 0|no
1 4|0 200|0|0 0 0 0 0 0|no
1 4|4 3 2 1|3|0 1 1 2 2 3|no
1 4|1 2 3 2 4|7|0 1 1 2 2 3|no
1 4|1 2 1 2 3 4|5|0 1 1 2 2 3|no
1 4|1 2 3|2|0 1 1 2 2 3|no
1 4|2 3 4|2|0 1 1 2 2 3|no
1 4|1 2 3 4, 1 2 3 4|6|0 1 1 2 2 3|no
1 4|1 2 4, 1 3 2 4|14|0 1 3 4 4 7|no
1 4|1 2 4, 1 2 3 4|8|0 1 3 4 4 7|no
4 1|1 2 3 4|3|0 1 1 2 2 3|no
1 1|none|0|0 0 0 0 0 0|no
1 1|1|0|0 0 0 0 0 0|no
0 4|none|0|0 0 0 0 0 0|no
1 5|none|0|0 0 0 0 0 0|no
200 4|none|0|0 0 0 0 0 0|no
0 255|none|0|0 0 0 0 0 0|no
200 200|none|0|0 0 0 0 0 0|no";

/// The nodes of a path.
fn nodes(alloc: Global, words: &str) -> Result<Listed<NodeId>, Fail> {
    let mut nodes = Vec::new(alloc);
    if words.is_empty() {
        return Ok(Listed::from_vec(nodes));
    }
    for word in words.split(' ') {
        nodes.push(NodeId(word.parse()?))?;
    }
    Ok(Listed::from_vec(nodes))
}

/// The paths of a set.
fn paths(alloc: Global, words: &str) -> Result<Listed<Listed<NodeId>>, Fail> {
    let mut paths = Vec::new(alloc);
    if words == "none" {
        return Ok(Listed::from_vec(paths));
    }
    for path in words.split(", ") {
        paths.push(nodes(alloc, path)?)?;
    }
    Ok(Listed::from_vec(paths))
}

/// The potentials.
fn potentials(alloc: Global, words: &str) -> Result<Listed<i64>, Fail> {
    let mut numbers = Vec::new(alloc);
    if words.is_empty() {
        return Ok(Listed::from_vec(numbers));
    }
    for word in words.split(' ') {
        numbers.push(word.parse::<i64>()?)?;
    }
    Ok(Listed::from_vec(numbers))
}

/// An end.
fn end(word: &str) -> Result<NodeId, Fail> {
    Ok(NodeId(word.parse()?))
}

/// Checks one row.
fn judge(rt: &(impl Abort + AllocGlobal), graph: &Graph, row: &str) -> Result<(), Fail> {
    let mut fields = row.split('|');
    let (from, to) = fields
        .next()
        .ok_or("no ends")?
        .split_once(' ')
        .ok_or("one end")?;
    let set = Paths {
        paths: paths(rt.alloc(), fields.next().ok_or("no paths")?)?,
        cost: fields.next().ok_or("no cost")?.parse()?,
        potentials: potentials(rt.alloc(), fields.next().ok_or("no potentials")?)?,
    };
    let right = fields.next().ok_or("no answer")? == "yes";
    let answer = check(graph, end(from)?, end(to)?, &set);
    assert_eq!(rt; answer, right, "{row}");
    Ok(())
}

#[test]
fn any_set_is_judged(rt: HostRuntime) -> Result<(), Fail> {
    let graph = graph_of(rt.alloc(), TRAP)?;
    for row in SETS.lines() {
        judge(&rt, &graph, row)?;
    }
    Ok(())
}
