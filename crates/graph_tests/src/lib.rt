// Examples of graph calls over both tables; nothing but tests.
#![tactic(auto)]

#[cfg(test)]
mod examples;
#[cfg(test)]
mod random;
#[cfg(test)]
mod refusals;
