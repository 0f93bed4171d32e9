// Laws of the lines of every frame.
ghost use Rattle.script_lang.specs.GroupLines.{GroupsTellTheTree};
ghost use Rattle.script_lang.specs.GroupJson.{GroupsTellTheJson};

/// Law: the lines of a composition's groups in preorder are the lines of its node tree. Calls, keys and cells
/// have no line; their contents take their place.
pub fn groups_tell_the_tree()
    ensures { GroupsTellTheTree }
{}

/// Law: the JSON that a composition's groups make in preorder is that of its node tree.
pub fn groups_tell_the_json()
    ensures { GroupsTellTheJson }
{}
