// What a parse of words gives to the command and to each option.

/// The text of the command and of each option that was given.
#[derive(Clone, Copy, Debug)]
pub struct Given<'a> {
    pub command: Option<&'a str>,
    pub from: Option<&'a str>,
    pub to: Option<&'a str>,
    pub paths: Option<&'a str>,
    pub seed: Option<&'a str>,
    pub turns: Option<&'a str>,
    pub port: Option<&'a str>,
    pub local: Option<&'a str>,
    pub request: Option<&'a str>,
}
