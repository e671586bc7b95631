//! Laws of logs. Each is the contract of a function that does nothing.
ghost use Rattle.std.specs.Prelude.{◌≡◌, ◌≤◌, ℕ, List, [], ◌∷◌, ◌++◌};
ghost use Rattle.c8_disk.specs.Runs.{LeavesOnly};
ghost use Rattle.c8_log.specs.Slots.{kept, IsKept};
ghost use Rattle.c8_log.specs.Log.{KeepsOneOf, KeepsWithOrWithout, SinceKeeps};
ghost use Rattle.c8_log.specs.Journal.{KeepsBodies, AllKeepBodies};

use c8_disk::Disk;

/// The kept bodies are those of the open slots before the first that is not open. No other list of
/// bodies is kept.
pub fn kept_is_least()
    ensures is { (image : List ℕ) → IsKept image (kept image) }
    ensures only { (image : List ℕ) (bodies : List (List ℕ))
        → IsKept image bodies → bodies ≡ kept image }
{}

/// If each image since a moment keeps one of some lists of bodies, the same holds after an `append`,
/// with its list added.
pub fn appends_add_one_list<D: Disk>()
    ensures { (old new : D) (t : ℕ) (lists : List (List (List ℕ))) (body : List ℕ)
        → t ≤ D.moment old
        → SinceKeeps D.Disk old t lists
        → LeavesOnly D.Disk old new (KeepsWithOrWithout (kept (D.seen old)) body)
        → SinceKeeps D.Disk new t (lists ++ (kept (D.seen old) ++ body ∷ []) ∷ []) }
{}

/// The same for an `append` of a journal that is up: before the call each image keeps its bodies.
pub fn journals_add_one_list<D: Disk>()
    ensures { (old new : D) (t : ℕ) (lists : List (List (List ℕ)))
        (bodies : List (List ℕ)) (body : List ℕ) → t ≤ D.moment old
        → AllKeepBodies bodies None (D.may_leave old) → SinceKeeps D.Disk old t lists
        → LeavesOnly D.Disk old new (KeepsBodies bodies (Some body))
        → SinceKeeps D.Disk new t (lists ++ (bodies ++ body ∷ []) ∷ []) }
{}

/// The same for an opening or a `read`, which add no list.
pub fn openings_and_reads_add_no_list<D: Disk>()
    ensures opening { (old new : D) (t : ℕ) (lists : List (List (List ℕ))) → t ≤ D.moment old
        → SinceKeeps D.Disk old t lists → LeavesOnly D.Disk old new (KeepsOneOf (D.may_leave old))
        → SinceKeeps D.Disk new t lists }
    ensures read { (old new : D) (t : ℕ) (lists : List (List (List ℕ))) → t ≤ D.moment old
        → SinceKeeps D.Disk old t lists → LeavesOnly D.Disk old new (D.may_leave old)
        → SinceKeeps D.Disk new t lists }
{}
