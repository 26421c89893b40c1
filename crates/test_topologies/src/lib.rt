//! The topology's documents and drafts held against those of another program.
#![tactic(auto)]

#[cfg(test)]
mod drafts;
#[cfg(test)]
mod format_2;
#[cfg(test)]
mod format_2_rows;
#[cfg(test)]
mod topologies;
