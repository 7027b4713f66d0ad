//! Examples and boundaries of the library crates. The contracts say what holds for every input; these run the code.
#![tactic(auto)]

mod cover_example;
mod covers;
mod examples;
mod generators;
mod known_values;
mod links;
mod pair_example;
mod reading_example;
mod recordings;
mod refusals;
