// A disk and the history that it stands for.
ghost use Rattle.std.specs.Prelude.{◌≡◌};
ghost use Rattle.wse_path.specs.Limits.{standard};
ghost use Rattle.wse_engine.specs.Engine.{IsEngine};

use std::marker::Model;
use wse_disk::Disk;
use wse_history::History;
use wse_txn::Idle;

/// A disk at rest, and the history of the state that it stands for. It owns both. Contracts see the disk, its journal's area and
/// closed gate, and of the history the state, the limits, and how often each path's history turned. This project's own.
pub struct Engine<D: Disk> {
    pub(crate) idle: Idle<D>,
    pub(crate) history: History,
}

impl<D: Disk> Model for Engine<D> {
    ghost use Rattle.wse_engine.specs.Engine.{EngineNow, IsEngine};

    ghost Value = { EngineNow D };

    ghost view = { λ a. record {
      disk = a.idle.disk;
      area = a.idle.area;
      gate = a.idle.gate;
      state = a.history.state;
      limits = a.history.limits;
      turned = a.history.turned;
    } };

    ghost invariant = { λ a. IsEngine (D.told a.idle.disk) a.idle.area a.idle.gate a.history.state };
}

/// Why a command wasn't done.
pub enum ExecFault<D: Disk> {
    /// There was no memory. The engine is as it was, and no call of the disk was made.
    Memory(Engine<D>),
    /// The disk failed, and is handed back: opening it again is the way on.
    Disk(D),
}

impl<D: Disk> Engine<D> {
    /// The engine of a disk at rest and the history of the state that it stands for.
    pub fn of(idle: Idle<D>, history: History) -> Engine<D>
        requires { IsEngine (D.told idle.disk) idle.area idle.gate history.state }
        ensures { result ≡ record {
          disk = idle.disk;
          area = idle.area;
          gate = idle.gate;
          state = history.state;
          limits = history.limits;
          turned = history.turned;
        } }
    {
        Engine { idle, history }
    }

    /// The history. Takes no memory.
    pub fn history(&self) -> &History
        ensures state { result.now.state ≡ self.now.state }
        ensures limits { result.now.limits ≡ self.now.limits }
        ensures turns { result.now.turned ≡ self.now.turned }
    {
        &self.history
    }

    /// The disk, on which nothing is pending. Takes no memory.
    pub fn disk(&self) -> &D
        ensures disk { result.now ≡ self.now.disk }
        ensures stands { IsEngine (D.told self.now.disk) self.now.area self.now.gate self.now.state }
    {
        self.idle.disk()
    }

    /// Hands the disk back, on which nothing is pending.
    pub fn into_disk(self) -> D
        ensures disk { result ≡ self.disk }
        ensures stands { IsEngine (D.told self.disk) self.area self.gate self.state }
    {
        let Engine { idle, history: _ } = self;
        idle.into_disk()
    }
}
