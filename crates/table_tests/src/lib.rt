// Examples of the node tables; nothing but tests.
#![tactic(auto)]

#[cfg(test)]
mod layout;
#[cfg(test)]
mod pairs;
#[cfg(test)]
mod script;
#[cfg(test)]
mod sizes;
