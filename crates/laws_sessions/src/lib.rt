//! The laws of client sessions: over any list of datagrams, and of steps that the local makes between them, each answer is the one that the
//! protocol gives after those before, and each request runs once.
#![tactic(auto)]

ghost use Rattle.laws_sessions.specs.Laws.{DialoguesAreAnswered, EachRunsOnce, TheLastNumberRunsNoMore, WorkedRow};

use sp_client::Local;

/// A law: over any list of datagrams and of moves of the local by others, from no sessions on, the table answers what the protocol says by
/// the list of what was asked and answered before, whatever the local node is.
pub fn each_answer_is_the_one_after_those_before<L: Local>()
    ensures { DialoguesAreAnswered L.steps }
{}

/// A law: over any such list, the requests that ran in a session of a port have the numbers 1, 2, 3 and so on, each once and in
/// this order, and the first is an `open`.
pub fn each_request_runs_once_and_in_order<L: Local>()
    ensures { EachRunsOnce L.steps }
{}

/// A law: in a session whose last request has the greatest number no request runs any more.
pub fn the_last_number_runs_no_more()
    ensures { TheLastNumberRunsNoMore }
{}

/// The worked row, computed by the checker: an open, a send that comes three times and asks the node once, a number ahead, a port
/// without a session, and a ninth open.
pub fn the_worked_row_is_answered_so()
    ensures { WorkedRow }
{}
