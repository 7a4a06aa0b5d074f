//! Threads that share a store and run concurrently.
//!
//! `soak.rt` runs feeders, compactors, a keeper and two threads that query (`actors.rt`), over random stores that plans describe
//! (`plan.rt`, `drawn.rt`, `dice.rt`). `races.rt` runs two compactors that race, and workers that wait at a gate (`gate.rt`), over the
//! writes and queries of `given.rt`. `pieces.rt` has two threads that draw pieces. `claimants.rt` has four threads, each with a seat of
//! one table of slots (`slots.rt`).
//!
//! `scene.rt` has a store and the state that its threads share, and `place.rt` a seat whose type names its store. `plain.rt` compares
//! answers with those of plain writes, and `done.rt` counts changes. Calls that several actors make in turn are tested by
//! `tests/shared.py`.
#![tactic(auto)]

#[cfg(test)]
mod actors;
#[cfg(test)]
mod claimants;
#[cfg(test)]
mod dice;
#[cfg(test)]
mod done;
#[cfg(test)]
mod drawn;
#[cfg(test)]
mod gate;
#[cfg(test)]
mod given;
#[cfg(test)]
mod pieces;
#[cfg(test)]
mod place;
#[cfg(test)]
mod plain;
#[cfg(test)]
mod plan;
#[cfg(test)]
mod races;
#[cfg(test)]
mod scene;
#[cfg(test)]
mod slots;
#[cfg(test)]
mod soak;
