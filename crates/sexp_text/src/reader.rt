// Parsing of source text in one pass over its tokens.
ghost use Rattle.std.specs.Prelude.{◌⊎◌, ◌≡◌, ◌≢◌, ◌∷◌, ◌≤◌, ◌<◌, [], Some, None, Err, length, true, slice_index, IfOk, IfErr, OnOk};
ghost use Rattle.std.specs.Str.{IsUtf8};
ghost use Rattle.sexp_text.specs.Forest.{Forest, empty, atom, joined_trees, list_nesting};
ghost use Rattle.sexp_text.specs.View.{tree_view, forest_view};
ghost use Rattle.sexp_text.specs.Grammar.{is_atom_byte, Spells};
ghost use Rattle.sexp_text.specs.TextFaults.{Cause};
ghost use Rattle.sexp_text.specs.Machine.{trees, lists, state_of, first_state, whole, Refuses, gap, close_list, all_closed, Rests};

use crate::lexer::{atom_len, comment_len, is_blank_byte, is_byte_of_atom, parse_string};
use crate::{TextStop, Tree};
use rt_values::Word;
use std::alloc::Global;
use std::{mem, str};

// The most lists that may be nested.
const DEEPEST: usize = 100;

// The offset of an open list, and the trees before it in the list around it.
type OpenList = (usize, Vec<Tree>);

// The state of the parser between tokens: the open lists, the innermost last, and the trees of the innermost list so
// far. A closed list moves to memory of its exact size, and `spare` keeps the memory in which it grew for a later list.
#[derive(Drop)]
struct Reader {
    alloc: Global,
    around: Vec<OpenList>,
    current: Vec<Tree>,
    spare: Vec<Vec<Tree>>,
}

// Moves all trees into a list of exactly their number.
fn move_all(alloc: Global, trees: &mut Vec<Tree>) -> Result<Vec<Tree>, TextStop>
    ensures ok { IfOk result (λ v. v.items ≡ trees.old.items) }
    ensures err { IfErr result (λ e. e ≡ TextStop.NoMemory) }
{
    let mut all = Vec::with_capacity(alloc, trees.len())?;
    all.append(trees)?;
    Ok(all)
}

// Returns an empty list, in spare memory if there is some.
fn empty_list(alloc: Global, spare: &mut Vec<Vec<Tree>>) -> Vec<Tree>
    ensures { result.items ≡ [] }
{
    match spare.pop() {
        Some(mut list) => {
            list.clear();
            list
        }
        None => Vec::new(alloc),
    }
}

impl Reader {
    fn new(alloc: Global) -> Self
        ensures { state_of result ≡ first_state }
    {
        Reader {
            alloc,
            around: Vec::new(alloc),
            current: Vec::new(alloc),
            spare: Vec::new(alloc),
        }
    }

    // Appends `tree` to the innermost list.
    #[tactic(auto, using(crate::proofs::Trees::pushes))]
    fn put(&mut self, tree: Tree) -> Result<(), TextStop>
        ensures trees { OnOk result (trees self.new ≡ joined_trees (trees self.old) (tree_view tree)) }
        ensures lists { OnOk result (lists self.new ≡ lists self.old) }
        ensures err { IfErr result (λ e. e ≡ TextStop.NoMemory) }
    {
        self.current.push(tree)?;
        Ok(())
    }

    // Opens a list at the offset `at`.
    #[tactic(auto, using(crate::proofs::Trees::pushes))]
    fn open_list(&mut self, at: usize) -> Result<(), TextStop>
        ensures ok { OnOk result (state_of self.new ≡ (gap, (at, trees self.old) ∷ lists self.old, empty)) }
        ensures room { OnOk result (length (lists self.old) < 100) }
        ensures err { IfErr result (λ e. (e ≡ TextStop.NoMemory)
            ⊎ ((e ≡ TextStop.TooDeep at) × (100 ≤ length (lists self.old)))) }
    {
        if self.around.len() >= DEEPEST {
            return Err(TextStop::TooDeep { at });
        }
        let inner = empty_list(self.alloc, &mut self.spare);
        let before = mem::replace(&mut self.current, inner);
        self.around.push((at, before))?;
        Ok(())
    }

    // Closes the innermost list. Fails if no list is open.
    #[tactic(auto, using(crate::proofs::Trees::pushes))]
    fn close_list(&mut self, at: usize) -> Result<(), TextStop>
        ensures ok { OnOk result (close_list (lists self.old) (trees self.old) ≡ Some (state_of self.new)) }
        ensures err { IfErr result (λ e. (e ≡ TextStop.NoMemory)
            ⊎ ((e ≡ TextStop.Bad at) × (close_list (lists self.old) (trees self.old) ≡ None))) }
    {
        match self.around.pop() {
            None => Err(TextStop::Bad { at }),
            Some((opened, before)) => {
                let mut inner = mem::replace(&mut self.current, before);
                let trees = move_all(self.alloc, &mut inner)?;
                self.spare.push(inner)?;
                self.put(Tree::List(opened, trees))
            }
        }
    }

    // Parses the atom that begins at `at`, and returns the offset after it.
    #[tactic(auto, using(crate::proofs::Trees::pushes))]
    fn read_atom(&mut self, bytes: &[u8], at: usize) -> Result<usize, TextStop>
        requires inside { at < length bytes.now }
        requires begins { is_atom_byte (slice_index bytes.now at) ≡ true }
        ensures within { IfOk result (λ end. (at < end) × (end ≤ length bytes.now)) }
        ensures ok { IfOk result (λ end. Rests bytes.now at (lists self.old) (trees self.old) →
            Rests bytes.now end (lists self.new) (trees self.new)) }
        ensures err { IfErr result (λ e. e ≡ TextStop.NoMemory) }
    {
        let rest = &bytes[at..];
        let name = &rest[..atom_len(rest)];
        self.put(Tree::Atom(at, Word::of(self.alloc, name)?))?;
        Ok(at + name.len())
    }

    // Parses the string that begins at `at`, and returns the offset after it.
    #[tactic(auto, using(crate::proofs::Trees::pushes))]
    fn read_text(&mut self, bytes: &[u8], at: usize) -> Result<usize, TextStop>
        requires inside { at < length bytes.now }
        requires begins { slice_index bytes.now at ≡ 34 }
        ensures within { IfOk result (λ end. (at < end) × (end ≤ length bytes.now)) }
        ensures ok { IfOk result (λ end. Rests bytes.now at (lists self.old) (trees self.old) →
            Rests bytes.now end (lists self.new) (trees self.new)) }
        ensures err { IfErr result (λ e. Rests bytes.now at (lists self.old) (trees self.old) →
            Refuses bytes.now e) }
    {
        let (chars, end) = parse_string(self.alloc, bytes, at)?;
        self.put(Tree::Text(at, chars))?;
        Ok(end)
    }

    // Takes the byte or the token that begins at `at`, and returns the offset after it.
    fn advance(&mut self, bytes: &[u8], at: usize) -> Result<usize, TextStop>
        requires { at < length bytes.now }
        ensures within { IfOk result (λ end. (at < end) × (end ≤ length bytes.now)) }
        ensures ok { IfOk result (λ end. Rests bytes.now at (lists self.old) (trees self.old) →
            Rests bytes.now end (lists self.new) (trees self.new)) }
        ensures err { IfErr result (λ e. Rests bytes.now at (lists self.old) (trees self.old) →
            Refuses bytes.now e) }
    {
        let b = bytes[at];
        if is_blank_byte(b) {
            return Ok(at + 1);
        }
        if is_byte_of_atom(b) {
            return self.read_atom(bytes, at);
        }
        match b {
            b'(' => {
                self.open_list(at)?;
                Ok(at + 1)
            }
            b')' => {
                self.close_list(at)?;
                Ok(at + 1)
            }
            b'"' => self.read_text(bytes, at),
            b';' => Ok(at + comment_len(&bytes[at..])),
            _ => Err(TextStop::Bad { at }),
        }
    }

    // Returns the trees at the end of the input, whose length is `at`. Fails if a list is open.
    fn complete(self, at: usize) -> Result<Vec<Tree>, TextStop>
        ensures ok { IfOk result (λ v. all_closed (lists self) (trees self) ≡ Some (forest_view v.items)) }
        ensures err { IfErr result (λ e. (e ≡ TextStop.Bad at) × (all_closed (lists self) (trees self) ≡ None)) }
    {
        if !self.around.is_empty() {
            return Err(TextStop::Bad { at });
        }
        Ok(self.current)
    }
}

// Parses bytes by the state machine of `specs/Machine.antt`.
fn read_trees(alloc: Global, bytes: &[u8]) -> Result<Vec<Tree>, TextStop>
    ensures ok { IfOk result (λ trees. (whole bytes.now ≡ Some (forest_view trees.items))
        × (list_nesting (forest_view trees.items) ≤ 100)) }
    ensures err { IfErr result (Refuses bytes.now) }
{
    let mut reader = Reader::new(alloc);
    let mut at = 0;
    while at < bytes.len() {
        at = reader.advance(bytes, at)?;
    }
    reader.complete(at)
}

// Parses bytes that are UTF-8.
fn read_utf8(alloc: Global, bytes: &[u8]) -> Result<Vec<Tree>, TextStop>
    requires { IsUtf8 bytes.now }
    ensures ok { IfOk result (λ trees. Spells bytes.now (forest_view trees.items)
        × (list_nesting (forest_view trees.items) ≤ 100)) }
    ensures refused { (stop : TextStop) → result ≡ Err stop → stop ≢ TextStop.NoMemory →
        (f : Forest) → Spells bytes.now f → list_nesting f ≤ 100 → ⊥ }
    ensures cause { IfErr result (Cause bytes.now) }
    ensures told { (stop : TextStop) → stop ≢ TextStop.NoMemory → Cause bytes.now stop →
        (result ≡ Err stop) ⊎ (result ≡ Err TextStop.NoMemory) }
{
    read_trees(alloc, bytes)
}

/// Parses `bytes` into trees, each with its offset. Lists may nest at most 100 deep.
///
/// A rule of this project. Fails at the offset where the bytes stop being the beginning of such a
/// text, and if memory runs out. Takes time in proportion to the bytes, and constant stack.
pub fn read(alloc: Global, bytes: &[u8]) -> Result<Vec<Tree>, TextStop>
    ensures ok { IfOk result (λ trees. Spells bytes.now (forest_view trees.items)
        × (list_nesting (forest_view trees.items) ≤ 100)) }
    ensures refused { (stop : TextStop) → result ≡ Err stop → stop ≢ TextStop.NoMemory →
        (f : Forest) → Spells bytes.now f → list_nesting f ≤ 100 → ⊥ }
    ensures cause { IfErr result (Cause bytes.now) }
    ensures told { (stop : TextStop) → stop ≢ TextStop.NoMemory → Cause bytes.now stop →
        (result ≡ Err stop) ⊎ (result ≡ Err TextStop.NoMemory) }
{
    match str::from_utf8(bytes) {
        Ok(_) => read_utf8(alloc, bytes),
        Err(fault) => Err(TextStop::NotUtf8 {
            at: fault.valid_up_to(),
        }),
    }
}
