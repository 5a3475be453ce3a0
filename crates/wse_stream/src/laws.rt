// What the words on a run say of lines whose answers are out, and of a run behind an opening.
ghost use Rattle.std.specs.Prelude.{◌≡◌, ◌≢◌, ◌⊎◌, ℕ, ◌≤◌, List, [], length, take, Option};
ghost use Rattle.wse_disk.specs.Reading.{Reading};
ghost use Rattle.wse_disk.specs.Told.{WhereTold, CountsMoments};
ghost use Rattle.wse_io.specs.Stream.{Piece, IsPrefix};
ghost use Rattle.wse_stream.specs.Machine.{transcript};
ghost use Rattle.wse_stream.specs.Opened.{IsEarlier, RunsFrom};
ghost use Rattle.wse_stream.specs.Rests.{Stretches, StaysTold};
ghost use Rattle.wse_stream.specs.Run.{HoldsFront};
ghost use Rattle.wse_stream.specs.Runs.{Ending, Runs};
ghost use Rattle.wse_stream.specs.Scene.{DiskAt, Scene, scene};

use crate::machine::HasMachine;

/// Where no answer is empty, an image that holds a front to which all that was out are answers holds each line whose answer
/// was out whole.
pub fn holds_each_answered<M: HasMachine>()
    ensures { ((n : ℕ) (s : M.State) (line : List ℕ) → M.machine.answer n s line ≢ [])
        → (n : ℕ) (s : M.State) (ls : List (List ℕ)) (out : List ℕ) (image : Reading)
        → (held : HoldsFront M.machine n s ls out image) → (count : ℕ) → count ≤ length ls
        → IsPrefix (transcript M.machine n s (take count ls)) out → count ≤ held.front }
{}

/// A run behind an opening that leaves what was at the start, or what stands for the opened state or the first one, is a
/// run from the opened state.
pub fn runs_behind_an_opening<M: HasMachine>()
    ensures { (opened first : M.State) (left : Option (List ℕ)) (pieces : Option (List Piece)) (max_input : ℕ)
        (start middle : DiskAt) (now : Scene) (ending : Ending)
        → CountsMoments start.told start.moment → start.moment ≤ middle.moment
        → WhereTold start.told (λ d. M.machine.stands opened d.reading)
        → Stretches start.told middle.told (λ image. IsEarlier M.machine opened start image ⊎ M.machine.stands first image)
        → StaysTold start.told middle.told
        → Runs M.machine first max_input (scene left pieces middle) now ending
        → RunsFrom M.machine opened first max_input (scene left pieces start) now ending }
{}
