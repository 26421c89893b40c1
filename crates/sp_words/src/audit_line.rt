// What a command line of the auditor asks for.
use sp_base::NodeId;

/// A command of the auditor with its values. Files are named as the system names them.
#[derive(Debug, Drop)]
pub enum AuditLine<'a> {
    /// `run SCHEDULE JOURNAL`: whether the run that the two files tell keeps each promise.
    Run { schedule: &'a str, journal: &'a str },
    Rounds(RoundsQuery<'a>),
    /// `schedule SCHEDULE`: its text is written back.
    Schedule { schedule: &'a str },
    /// `journal JOURNAL`: its text is written back.
    Journal { journal: &'a str },
}

/// `rounds SCHEDULE --path U,V,W --from N`: how many complete rounds of these nodes follow one after another, from the event of this number on.
#[derive(Debug, Drop)]
pub struct RoundsQuery<'a> {
    pub schedule: &'a str,
    /// One at least. Nothing else is judged here.
    pub path: Vec<NodeId>,
    /// Events are counted from 1.
    pub from: u32,
}
