// The least of several offsets.
ghost use Rattle.std.specs.Prelude.{◌≡◌};
ghost use Rattle.lang_limits.specs.LeastOffset.{least_offset_from};
ghost use Rattle.lang_ast.specs.Sizes.{offset_if};

/// Returns the lesser of `least` and `at` if `is_over`, and else `least`.
pub fn note_excess(is_over: bool, at: usize, least: Option<usize>) -> Option<usize>
    ensures { result ≡ least_offset_from least (offset_if is_over at) }
{
    if !is_over {
        return least;
    }
    match least {
        None => Some(at),
        Some(kept) => Some(kept.min(at)),
    }
}
