// What a parse of the auditor's words gives to the command, to each file and to each option.

/// The text of the command, of the files in their order, and of each option that was given.
#[derive(Clone, Copy, Debug)]
pub struct AuditGiven<'a> {
    pub command: Option<&'a str>,
    pub first: Option<&'a str>,
    pub second: Option<&'a str>,
    pub path: Option<&'a str>,
    pub from: Option<&'a str>,
}
