//! The options of words, read by `clap`.
#![tactic(auto)]

mod joining;
mod loose;
mod parsing;
mod telling;
mod values;

pub use loose::{
    CALLS, COMPARE, GENERATE, INVERT, LooseWord, RUN, TaskOptions, asks_for_help, option_name,
};
pub use telling::{
    message_of_calls, message_of_compare, message_of_generate, message_of_invert, message_of_run,
};
pub use values::{
    CallsValues, CompareValues, GenerateValues, InvertValues, RunValues, calls_values,
    compare_values, generate_values, invert_values, run_values,
};
