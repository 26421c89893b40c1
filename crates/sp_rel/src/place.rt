// Where the row of a flow stands in a table.
use sp_base::Flow;

/// Where the row of a flow stands: sought once, and good for all calls that speak of the flow, since rows never move.
#[derive(Clone, Copy, Debug)]
pub struct Place {
    pub(crate) flow: Flow,
    /// None where the table has no row of the flow.
    pub(crate) at: Option<usize>,
}
