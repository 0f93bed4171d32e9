// The end of a history at a frame that ran out of memory.
ghost use Rattle.std.specs.Prelude.{◌≡◌, ◌++◌, List, false};
ghost use Rattle.snap_api.specs.declared.data.Entry.{Entry as entry_data};

use play_run::is_dispose;
use rt_values::Name;
use snap_api::Entry;

// Ends a history before its first dispose of the snapshot `name`.
fn cut_before(calls: &mut Vec<Entry>, name: Name)
    ensures { (more : List entry_data) × (calls.new.items ++ more ≡ calls.old.items) }
{
    if let Some(kept) = calls
        .iter()
        .position(|call| is_dispose(&call.request, name))
    {
        calls.truncate(kept);
    }
}

/// Ends a history before the dispose of `failed`, the snapshot of a frame that ran out of memory. Returns the history,
/// and whether its last calls are missing.
pub(crate) fn cut_history(history: Vec<Entry>, failed: Option<Name>) -> (Vec<Entry>, bool)
    ensures part { (more : List entry_data) × (result.0.items ++ more ≡ history.items) }
    ensures whole { result.1 ≡ false → result.0.items ≡ history.items }
{
    let mut calls = history;
    match failed {
        Some(name) => {
            cut_before(&mut calls, name);
            (calls, true)
        }
        None => (calls, false),
    }
}
