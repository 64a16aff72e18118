//! Worked rows of the parts: of the types that all share and the small parts, of what is read of a request, of what is read of an
//! output and written of it, and of the site file. There is no code beside the tests.
#![tactic(auto)]

#[cfg(test)]
mod tests;
