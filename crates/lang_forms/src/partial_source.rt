// The part of a source text that is parsed already.
ghost use Rattle.std.specs.Prelude.{◌≡◌, Bool};
ghost use Rattle.lang_ast.specs.SyntaxView.{function_view};
ghost use Rattle.lang_forms.specs.Readings.{StateTop, FunctionTop, DoTop};
ghost use Rattle.lang_forms.specs.TextReading.{start, known_names, source_with_form, source_with_tree};
ghost use Rattle.lang_forms.specs.Views.{seen_tree, known_names_view, partial_source_view, Reads};

use crate::known_names::KnownNames;
use crate::stop::ParseStop;
use crate::top_forms::{TopForm, parse_top_form};
use lang_ast::{DoForm, Function, State, Version};
use sexp_text::Tree;
use std::alloc::Global;

// The offset of the header, its version, the top forms after it, and the number of the next statement.
#[derive(Drop)]
pub struct PartialSource {
    pub header: usize,
    pub version: Version,
    pub states: Vec<State>,
    pub functions: Vec<Function>,
    pub script: Vec<DoForm>,
    pub site: u32,
}

impl PartialSource {
    // Creates the part that has only a header.
    pub fn new(alloc: Global, header: usize, version: Version) -> Self
        ensures { partial_source_view result ≡ start header version }
    {
        PartialSource {
            header,
            version,
            states: Vec::new(alloc),
            functions: Vec::new(alloc),
            script: Vec::new(alloc),
            site: 1,
        }
    }

    // Returns the names that the next form may use.
    fn known_names(&self) -> KnownNames<'_>
        ensures { known_names_view result ≡ known_names (partial_source_view self.now) }
    {
        KnownNames {
            states: &self.states,
            functions: &self.functions,
        }
    }

    // Appends a state. Fails if a function or a script comes before it.
    fn with_state(self, state: State, next: u32) -> Result<Self, ParseStop>
        ensures { Reads partial_source_view result (source_with_form (partial_source_view self) (StateTop state) next) }
    {
        if !self.functions.is_empty() || !self.script.is_empty() {
            return Err(ParseStop::NoForm);
        }
        let mut states = self.states;
        states.push(state)?;
        Ok(PartialSource {
            header: self.header,
            version: self.version,
            states,
            functions: self.functions,
            script: self.script,
            site: next,
        })
    }

    // Appends a function. Fails if a script comes before it.
    fn with_function(self, function: Function, next: u32) -> Result<Self, ParseStop>
        ensures { Reads partial_source_view result
            (source_with_form (partial_source_view self) (FunctionTop (function_view function)) next) }
    {
        if !self.script.is_empty() {
            return Err(ParseStop::NoForm);
        }
        let mut functions = self.functions;
        functions.push(function)?;
        Ok(PartialSource {
            header: self.header,
            version: self.version,
            states: self.states,
            functions,
            script: self.script,
            site: next,
        })
    }

    // Appends a part of the script.
    fn with_script(self, form: DoForm, next: u32) -> Result<Self, ParseStop>
        ensures { Reads partial_source_view result (source_with_form (partial_source_view self) (DoTop form) next) }
    {
        let mut script = self.script;
        script.push(form)?;
        Ok(PartialSource {
            header: self.header,
            version: self.version,
            states: self.states,
            functions: self.functions,
            script,
            site: next,
        })
    }

    // Parses `tree` and appends it as a top form. Fails if it is none, or out of order.
    pub fn with_tree(self, alloc: Global, tree: &Tree) -> Result<Self, ParseStop>
        ensures { Reads partial_source_view result (source_with_tree (partial_source_view self) (seen_tree tree.now)) }
    {
        let (form, next) = parse_top_form(alloc, &self.known_names(), self.site, tree)?;
        match form {
            TopForm::State(state) => self.with_state(state, next),
            TopForm::Function(function) => self.with_function(function, next),
            TopForm::Do(script) => self.with_script(script, next),
        }
    }
}
