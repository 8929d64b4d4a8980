// Worked examples on a shelf of two devices and one stripe set, as tests of the public calls.
#![tactic(auto)]

#[cfg(test)]
mod tests;
