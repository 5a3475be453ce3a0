// What holds of the definitions.
ghost use Rattle.wse_history.specs.Laws.{OutcomesMayApply};
ghost use Rattle.wse_history.specs.MoveLaws.{MovesMayApply, OutsidesMayApply, ForgetsMayApply};

/// What an undo or a redo records may come.
pub fn moves_may_apply()
    ensures { MovesMayApply }
{}

/// What is recorded of another program's change may come.
pub fn outsides_may_apply()
    ensures { OutsidesMayApply }
{}

/// What is recorded where a history is forgotten may come.
pub fn forgets_may_apply()
    ensures { ForgetsMayApply }
{}

/// What any command records may come, and leaves a state that the type of histories keeps.
pub fn outcomes_may_apply()
    ensures { OutcomesMayApply }
{}
