// Laws over the definitions.
ghost use Rattle.wse_element.specs.Laws.{RecordsStayLinked, TreeStaysLinked, NoneIsRefused, StateStaysLinked, OnlyPushesWeigh};

/// An effect that may come leaves records that fit one another. This project's own rule.
pub fn records_stay_linked()
    ensures { RecordsStayLinked }
{}

/// An effect that may come leaves a tree that is linked to the records that it leaves. This project's own rule.
pub fn tree_stays_linked()
    ensures { TreeStaysLinked }
{}

/// None of a command's effects is refused exactly where each is applicable behind those before it. This project's own rule.
pub fn none_is_refused()
    ensures { NoneIsRefused }
{}

/// The effects of one command that are applicable leave a linked state, where the files that they leave are a tree. This
/// project's own rule.
pub fn state_stays_linked()
    ensures { StateStaysLinked }
{}

/// Only a new record raises what the records count for, and only a new record and a split take ids. This project's own rule.
pub fn only_pushes_weigh()
    ensures { OnlyPushesWeigh }
{}
