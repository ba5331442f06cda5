#![tactic(auto)]

mod advance;
mod copying;
mod degrees;
mod discrepancy;
mod elimination;
mod equation;
mod lanes;
mod pivot;
pub mod replay;
mod row;
pub mod run;
pub mod script;
mod shift;
mod solve;
mod square;
pub mod standing;
mod start;
mod step;
mod tables;
mod trade;
