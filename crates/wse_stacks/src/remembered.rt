// A list of effects that only contracts read.
ghost use Rattle.std.specs.Prelude.{◌≡◌, IfOk, map};

use std::alloc::Global;
use std::marker::Model;
use std::snapshot::Snapshot;
use wse_element::Effect;
use wse_path::Memory;

/// Which list of effects was given. It holds no byte of them. Contracts see the list.
#[derive(Drop)]
pub(crate) struct Remembered {
    effects: Vec<Snapshot<Effect>>,
}

impl Model for Remembered {
    ghost use Rattle.std.specs.Prelude.{List, map};
    ghost use Rattle.wse_element.specs.declared.effect.Effect.{Effect};

    ghost Value = { List Effect };

    ghost view = { λ a. map (λ s. s.value) a.effects.items };
}

impl Remembered {
    /// Remembers the list.
    pub(crate) fn of(alloc: Global, effects: &[Effect]) -> Result<Remembered, Memory>
        ensures { IfOk result (λ remembered. remembered ≡ effects.now) }
    {
        let mut all = Vec::with_capacity(alloc, effects.len())?;
        for effect in effects {
            all.push(Snapshot::of(effect))?;
        }
        Ok(Remembered { effects: all })
    }
}
