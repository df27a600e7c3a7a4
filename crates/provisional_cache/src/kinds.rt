//! Whether cycles keep their kinds when a goal on them is answered by a provisional entry.
ghost use Rattle.std.specs.Prelude.{◌≡◌, ◌<◌, length, All};
ghost use Rattle.std.specs.List.{list_all};
ghost use Rattle.provisional_cache.specs.Below.{kinds_in};
ghost use Rattle.provisional_cache.specs.Words.{keeps_kind, keeps_kinds};

use path_kinds::path::{PathKind, PathsToNested};
use search_context::context::Cx;
use search_stack::stack::{Stack, StackEntry};

// Whether each way from a head over the goal that is done, and back, is of the same kind if the entry is
// on it, too.
pub(super) fn keeps_kinds<X: Cx>(
    to_entry: PathKind,
    to_done: PathsToNested,
    done: &StackEntry<X>,
    stack: &Stack<X>,
) -> bool
    requires { All (λ head. head.0.0 < length stack.now) done.now.state.heads }
    ensures { result ≡ keeps_kinds stack.now done.now to_entry to_done }
{
    for (depth, head) in done.state.heads.as_slice() {
        let from_head = stack.path_kind(done.step_kind_from_parent(), *depth);
        if !keeps_kinds_from(from_head, to_entry, to_done, head.paths_to_head) {
            return false;
        }
    }
    true
}

// The same for the paths from one head and to it.
fn keeps_kinds_from(
    from_head: PathKind,
    to_entry: PathKind,
    to_done: PathsToNested,
    to_head: PathsToNested,
) -> bool
    ensures { result ≡ list_all
        (λ to_head. list_all (λ own. keeps_kind from_head to_entry own to_head) (kinds_in to_done))
        (kinds_in to_head) }
{
    to_head.iter_paths().all(|to_head| keeps_kinds_over(from_head, to_entry, to_done, to_head))
}

// The same for one path to the head.
fn keeps_kinds_over(
    from_head: PathKind,
    to_entry: PathKind,
    to_done: PathsToNested,
    to_head: PathKind,
) -> bool
    ensures { result ≡ list_all (λ own.
        keeps_kind from_head to_entry own to_head) (kinds_in to_done) }
{
    to_done
        .iter_paths()
        .all(|own| keeps_kind(from_head, to_entry, own, to_head))
}

// The same for one path each.
fn keeps_kind(from_head: PathKind, to_entry: PathKind, to_done: PathKind, to_head: PathKind) -> bool
    ensures { result ≡ keeps_kind from_head to_entry to_done to_head }
{
    let without_entry = from_head.extend(to_head);
    without_entry == from_head.extend(to_entry).extend(to_done).extend(to_head)
}
