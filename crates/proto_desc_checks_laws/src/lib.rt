//! Laws of what is wrong with a file: what a rename, a change of imports and a deletion leave of
//! it. No code needs them.
#![tactic(auto)]

mod laws;

pub use laws::{
    asked_tokens_have_roles, blocks_are_declared, deletions_bring_no_flaws, flaws_of_names,
    imports_move_flaws, names_decide_three_kinds, tokens_are_of_one_field,
};
