// Examples of the formula reader and of products, as tables; nothing but tests.
#![tactic(auto)]

#[cfg(test)]
mod formulas;
#[cfg(test)]
mod products;
