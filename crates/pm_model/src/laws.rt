//! Laws about what a power loss may leave. Each function does nothing: its contract is the law.

ghost use Rattle.std.specs.Prelude.{◌≡◌, ℕ, List, [], Bool, true, ◌++◌};
ghost use Rattle.pm_model.specs.Words.{Words, Image, Picks, IsRested, reads};
ghost use Rattle.pm_model.specs.Moments.{State, MayLeave};
ghost use Rattle.pm_model.specs.Changes.{Leaves, LeavesPassing, PassesAfter};

/// What the device reads is one of the images that a power loss may leave.
pub fn what_is_read_may_be_left()
    ensures { (words : Words) → Picks words (reads words) }
{}

/// A power loss of a rested device leaves what the device reads, and nothing else.
pub fn a_rested_device_leaves_what_is_read()
    ensures { (words : Words) (image : Image) → IsRested words → Picks words image → image ≡ reads words }
{}

/// If a test holds for each image that some calls leave, with the bytes printed since their start, then it holds for
/// each image that may have been left at any moment since that start.
pub fn what_is_left_is_left_at_each_moment()
    ensures { (test : List ℕ → Image → Bool) (old : State) (new : State) → Leaves (λ said image. test said image ≡ true) old new
        → (said : List ℕ) (image : Image) → MayLeave old new said image → test said image ≡ true }
{}

/// Moments compose. Suppose that what the first calls leave passes one test, and that what the next calls leave passes
/// a second test. Suppose that both tests imply a third one, which sees the bytes of the first calls before those of
/// the next calls. Then what all the calls leave passes the third test.
pub fn moments_of_calls_join()
    ensures { (first second joined : List ℕ → Image → Bool) (bytes : List ℕ) (a b c : State)
        → b.now.said ≡ a.now.said ++ bytes → PassesAfter [] first joined → PassesAfter bytes second joined
        → LeavesPassing first a b → LeavesPassing second b c → LeavesPassing joined a c }
{}
