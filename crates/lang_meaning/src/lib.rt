//! Composition from scratch, for users of the library and for tests.
//!
//! `scratch` does what the bodies of composables do between `startRestartGroup` and `endRestartGroup` if nothing is
//! skipped. A composition is the list of its groups in preorder, each call with the state objects that it read itself.
//! What evaluates expressions (`lang_eval`) and the laws on calls that are skipped (`recompose_laws`) are exported too.
//! Promises: the groups are those of the definitions in `compose_model`, in the map that the view shows. The view is
//! asked for exactly the objects that the definitions read, in order.
#![tactic(auto)]

mod composition;

pub use composition::{ScratchStop, scratch};
pub use lang_eval::{
    Env, bind, eval, eval_noting, evaluate_all, evaluate_attributes, evaluate_keys,
};
pub use recompose_laws::{
    calls_reach_earlier_functions, cells_may_be_kept, evaluation_agrees, own_parts_agree,
    skipping_is_right,
};
