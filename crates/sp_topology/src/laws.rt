// What holds of every document and of every graph.
ghost use Rattle.sp_topology.specs.Documents.{ReadIsSpelled, SpelledIsRead};
ghost use Rattle.sp_topology.specs.Faults.{NoFaultIsInRange};

/// A law: each document is read as its topology, whatever comes after it, and bytes that are read begin with the document of what was
/// read. So a topology has one document, and a document is that of one topology.
pub fn a_topology_has_one_document()
    ensures read { SpelledIsRead }
    ensures spelled { ReadIsSpelled }
{}

/// A law: a graph has no fault exactly where it is in its ranges.
pub fn a_graph_without_fault_is_in_range()
    ensures { NoFaultIsInRange }
{}
