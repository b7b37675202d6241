//! Facts about lists, options and truth values that the kit's library lacks and several crates cite. This crate has no code.
//!
//! | file in `proofs/` | facts about |
//! |---|---|
//! | `Lists` | lists, and tests of their first elements |
//! | `Elements` | lists that are read by `get_elem?`, as shared tables are |
//! | `Ranges` | lists of consecutive numbers |
//! | `Options` | options |
//! | `Truth` | truth values |
//!
//! A fact about definitions of `gcd_plan` or `gcd_history` belongs to the proofs of that crate. So does a fact about sums and
//! counts, because it rests on `Sums` of `gcd_plan`. `tools/doubles` lists facts that are stated twice.
#![tactic(auto)]
