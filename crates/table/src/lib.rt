// Rule tables: what their words say.
#![tactic(auto)]

mod equations;
mod words;

pub use equations::equation_at;
pub use words::{
    CONSTANTS, FIRST, HEADS, OPERATION, PRODUCTIONS, RULES_EACH, SETS_EACH, SYMBOLS, UPPER, WORDS,
    child_count, child_of, constant_at, defined_at, has_set, head_at, inherited_of, left_of,
    number, occurs_at, production_count, symbol_at, symbol_count, synthesized_of,
};
