//! Laws of the disk model, for the crates above. Each is the contract of a function that does nothing.
ghost use Rattle.std.specs.Prelude.{◌≡◌, ◌≤◌, ◌⊎◌, ℕ, true, List, length};
ghost use Rattle.c8_disk.specs.AtOnce.{IsBetweenSyncs};
ghost use Rattle.c8_disk.specs.Disk.{overwritten, IsOverwritten, Torn};
ghost use Rattle.c8_disk.specs.Past.{are_lawful, IsImage};
ghost use Rattle.c8_disk.specs.Runs.{LeavesOnly, ReadsOnly};
ghost use Rattle.c8_disk.specs.declared.call.Call.{Call};

use crate::Disk;

/// A property of images, given by a value of the type.
pub trait Property {
    ghost has: { Self → List ℕ → Type 0 };
}

/// A write keeps what is before and after its range. A whole write counts as torn, and so does no write.
pub fn writes_keep_the_rest()
    ensures whole { (old : List ℕ) (at : ℕ) (bytes : List ℕ) → at ≤ length old
        → IsOverwritten at bytes old (overwritten old at bytes) }
    ensures none { (old : List ℕ) (at count : ℕ) → Torn at count old old }
{}

/// If nothing is done, a crash leaves only what it might have left before.
pub fn nothing_done<D: Disk>()
    ensures { (disk : D) → LeavesOnly D.Disk disk disk (D.may_leave disk) }
{}

/// Two runs of calls in a row are a run.
pub fn runs_chain<D: Disk, P: Property>()
    ensures { (old mid new : D) (p : P)
        → LeavesOnly D.Disk old mid (P.has p) → LeavesOnly D.Disk mid new (P.has p)
        → LeavesOnly D.Disk old new (P.has p) }
{}

/// If all images of a run have a property, they have each weaker one.
pub fn runs_weaken<D: Disk, P: Property, Q: Property>()
    ensures { (old new : D) (p : P) (q : Q) → LeavesOnly D.Disk old new (P.has p)
        → ((image : List ℕ) → P.has p image → Q.has q image) → LeavesOnly D.Disk old new (Q.has q) }
{}

/// Runs that only read chain. A run followed by one of them leaves what it leaves alone.
pub fn reads_chain<D: Disk, P: Property>()
    ensures reads { (old mid new : D)
        → ReadsOnly D.Disk old mid → ReadsOnly D.Disk mid new → ReadsOnly D.Disk old new }
    ensures runs { (old mid new : D) (p : P)
        → LeavesOnly D.Disk old mid (P.has p) → ReadsOnly D.Disk mid new
        → LeavesOnly D.Disk old new (P.has p) }
{}

/// A property of all images since a run began holds for what a read gives after it, and for what a crash then leaves.
pub fn runs_end<D: Disk, P: Property>()
    ensures read { (old new : D) (p : P)
        → LeavesOnly D.Disk old new (P.has p) → P.has p (D.seen new) }
    ensures crash { (old new : D) (p : P) → LeavesOnly D.Disk old new (P.has p)
        → (image : List ℕ) → D.may_leave new image → P.has p image }
{}

/// A property of all images since an earlier moment, and of all images of a run from now on, holds since that moment.
pub fn runs_go_on<D: Disk, P: Property>()
    ensures { (old new : D) (p : P) (t : ℕ) → t ≤ D.moment old
        → ((image : List ℕ) → D.left_since old t image → P.has p image)
        → LeavesOnly D.Disk old new (P.has p)
        → (image : List ℕ) → D.left_since new t image → P.has p image }
{}

/// What a crash may leave, without going call by call, if each write begins within the bytes. The length is any from
/// that at the last sync to the greatest written, and each byte outside the ranges written since that sync is as it was
/// then. A crash leaves nothing else (`only`), and may leave each such list of bytes (`each`).
pub fn images_at_once()
    ensures only { (first : List ℕ) (calls : List Call) (image : List ℕ)
        → are_lawful first calls ≡ true
        → IsImage first calls image → IsBetweenSyncs first calls image }
    ensures each { (first : List ℕ) (calls : List Call) (image : List ℕ)
        → are_lawful first calls ≡ true
        → IsBetweenSyncs first calls image → IsImage first calls image }
{}
