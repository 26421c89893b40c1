// The first message: it goes from one end of three nodes to the other, and its report comes back.

/// Its schedule.
pub const SCHEDULE: &str = "schedule 1
seed 0000000000000000000000000000000000000000000000000000000000000000
height 5
bounds 2 4
nodes 3
edge 1 2 10
edge 2 3 10
begin
rel 1 3 6869
poll 2 1
pass 2 1 1
poll 1 2
pass 1 2 1
poll 3 2
pass 3 2 1
take 3 1
poll 2 3
pass 2 3 1
take 3 1
end
";

/// Its journal, as another program wrote it.
pub const JOURNAL: &str = "journal 1
1 accepted 1
+ signed 020103000000000000000100026869
2 frame 1 76 f44da8597e91927d90384b9b270bb3b6f6d53c433938c099dec9df394c80d3bf
3 learned 1
4 frame 1 4871 9406c1cf63c0fbc45a4a3f5def5220ce6a5610866931bc1f9815399f93c8ceec
5 fresh rel:new
6 frame 1 76 3a319bfc8c16cdf2d6f40aaa8f3db39780c689fd6ef32643df6777b75a7d6435
7 learned 1
8 empty
9 frame 1 4871 2bf908c028e0d37d53f0f469b9dcb947704dc422e4abed31abf4e88a63a5bb03
10 fresh rel:new
+ delivered rel 1 1 6869
11 payload 6869
summary events 11 sent 1 delivered 1 priority 0 frames 4
";
