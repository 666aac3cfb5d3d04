// The discharges of a short, in place: delivered, bought in when an award is confirmed, and settled in cash.
#![tactic(auto)]

mod discharge;
mod refusal;

pub use discharge::{cash, confirm, delivery};
