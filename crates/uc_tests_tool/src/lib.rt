//! Tests of properties that the program `ucstore` can't show: the installs of compactors, the feeds of a feeder, and replies that no script
//! causes. Scripts over the built program test all other properties (`crates/ucstore/cases`).
//!
//! `asks.rt` has runs of `ask` over logs (`logs.rt`), each described by a row of numbers, and `meeting.rt` the points at which compactors
//! wait meanwhile. `reply_lines.rt` has the lines of replies.
#![tactic(auto)]

#[cfg(test)]
mod asks;
#[cfg(test)]
mod logs;
#[cfg(test)]
mod meeting;
#[cfg(test)]
mod reply_lines;
