// What holds over the lines of a run.
ghost use Rattle.wse_promise.specs.Laws.{LinesAreEvents, UndoesOverLines};

/// Any front of the lines of a run is a life from the state in which they begin: the commands that they are are its events, and
/// it leaves the state of the store's machine.
pub fn lines_are_events()
    ensures { LinesAreEvents }
{}

/// An undo in a run whose element's command came in the same run found at the element's paths what that command left, leaves
/// there what that command found, and leaves every other path as it was. A redo of it on the next line leaves the tree that
/// the undo found.
pub fn undoes_over_lines()
    ensures { UndoesOverLines }
{}
