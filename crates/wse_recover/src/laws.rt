// What holds of the definitions.
ghost use Rattle.wse_recover.specs.Laws.{NoneRefusedByTwo, FinishingStands};

/// None is refused exactly where the records refuse none, and each keeps the versions within their bounds.
pub fn none_refused_by_two()
    ensures { NoneRefusedByTwo }
{}

/// While an unsettled record is finished, the files still are finished as the same ones.
pub fn finishing_stands()
    ensures { FinishingStands }
{}
