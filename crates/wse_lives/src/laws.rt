// What holds over lives.
ghost use Rattle.std.specs.Prelude.{List};
ghost use Rattle.std.specs.List.{AllByRecursion};
ghost use Rattle.wse_path.specs.Path.{Path};
ghost use Rattle.wse_element.specs.State.{State};
ghost use Rattle.wse_element.specs.Stacks.{live_at};
ghost use Rattle.wse_lives.specs.Laws.{CommandsKeep, FreshIsSound, AdoptingKeeps, LinkedOverLives, UndoOverLives, RedoNext};
ghost use Rattle.wse_lives.specs.Lives.{Life, IsLife, lived, AgreesAt};

/// Each live part of each record has as its old content what its path had before the event that made the record's origin,
/// and as its new content what the path had after it.
pub fn records_agree()
    ensures { (start : State) (life : Life) → IsLife start life → (p : Path)
        → AllByRecursion (AgreesAt start life p) (live_at (lived start life).records p) }
{}

/// A command leaves a state that the type of histories keeps, and the records that it pushes say what it did.
pub fn commands_keep()
    ensures { CommandsKeep }
{}

/// A new history over a tree is one that its type keeps.
pub fn fresh_is_sound()
    ensures { FreshIsSound }
{}

/// Adopting a tree leaves a state that the type of histories keeps, and pushes nothing.
pub fn adopting_keeps()
    ensures { AdoptingKeeps }
{}

/// A state of a life is linked, and its records agree with the trees of the life.
pub fn linked_over_lives()
    ensures { LinkedOverLives }
{}

/// An undo or a redo that is answered as done found at its element's paths what the element's command left (or found, where it
/// is a redo), leaves there what that command found (or left), and leaves every other path as it was.
pub fn undo_over_lives()
    ensures { UndoOverLives }
{}

/// A redo right after an undo that was done, where nobody else holds a path of its element and the serial number is below its
/// limit, is done: it gives the tree of before the undo, the records of just before the element was moved, and versions two
/// higher at the element's paths.
pub fn redo_next()
    ensures { RedoNext }
{}
