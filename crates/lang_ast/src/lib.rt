//! Programs of composables with their scripts as plain data, and the values of expressions.
//!
//! The parser builds these types, the checks inspect them, and composing runs them. They take the place of the Kotlin
//! functions that the Compose compiler plugin rewrites. The language is this project's own.
//!
//! Contracts see expressions, statements and functions without pointers (`specs/Terms.antt`). `specs/Evaluation.antt`
//! defines the value of an expression. Promises: offsets are those that the parts were made with, and the root is the
//! first function of that name.
#![tactic(auto)]

mod binding;
mod offset;
mod program;
mod root;
mod script;
mod syntax;

pub use binding::Binding;
pub use program::{Program, State, Version};
pub use root::root_number;
pub use script::{
    CallForm, CallForms, DoForm, Rest, ScriptForm, ScriptForms, SnapshotRef, StepForm, StepForms,
};
pub use syntax::{
    Expression, Function, Head, Ident, Named, Operator, Parameter, Source, Statement,
};
