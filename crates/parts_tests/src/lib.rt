//! Tests of calls that are refused memory, of parts below the search: `tests/memory` refuses their requests. So they are
//! proved and compiled, and nothing else is here but the test of a cache whose rules change.
#![tactic(auto)]

#[cfg(test)]
mod changed;
#[cfg(test)]
mod refused;
