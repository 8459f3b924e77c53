//! Tests of the texts of records, of the images of logs, of logs on disks that fail, of stores with a log, and of followers.
//!
//! Storey: tests.
#![tactic(auto)]

#[cfg(test)]
mod followers;
#[cfg(test)]
mod images;
#[cfg(test)]
mod logged_commits;
#[cfg(test)]
mod real_file;
#[cfg(test)]
mod restoring;
#[cfg(test)]
mod stops;
#[cfg(test)]
mod texts;
