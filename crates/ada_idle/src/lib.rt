//! The laws of programs whose text creates no object with controlled parts, and assigns no record with some: no run of these calls an
//! operation of a controlled type (7.6, 7.6.1); and of those whose text copies no record with controlled parts: no run of these calls an
//! Adjust (7.6). Nothing here runs: each function of [`laws`] is a theorem on the definitions of meaning, and its contract is the
//! statement.
//!
//! What a crate above takes from here: `IsIdle` of `proofs::Idle`, and `step_idle` and `first_idle` of `proofs::Runs`; `AdjustsNone` of
//! `proofs::Unadjusted`, and `step_adjusts_none` and `first_adjusts_none` of `proofs::UnadjustedRuns`; and `IsClosed` of
//! `proofs::Frames` with `next_keeps` of `proofs::FrameSteps`: what holds of each frame that is left to do holds on, if it holds of those to
//! which each leads.
#![tactic(auto)]

pub mod laws;
