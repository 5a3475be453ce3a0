// A server that echoes each line behind the one before it.
ghost use Rattle.std.specs.Prelude.{◌≡◌, ◌++◌, ◌∷◌, [], codes, IfOk};

use std::alloc::Global;
use wse_path::Memory;
use wse_quiet_disk::QuietDisk;
use wse_server::{Server, Stopped};

pub struct Echo {
    pub disk: QuietDisk,
    pub last: Vec<u8>,
}

impl Server<QuietDisk> for Echo {
    ghost use Rattle.std.specs.Prelude.{List, ℕ, cond};
    ghost use Rattle.std.proofs.Common.{ap};
    ghost use Rattle.std.proofs.lemmas.Bool.{lt-ltb};
    ghost use Rattle.wse_server_tests.specs.Echo.{echo};

    ghost State = { List ℕ };

    ghost Setting = { Unit {0} };

    ghost machine = { λ _. echo };

    ghost setting_of = { λ _. tt };

    ghost state_of = { λ server. server.last.items };

    ghost disk_of = { λ server. server.disk };

    ghost keeps = { λ setting last line long. ap (λ is_long. cond is_long last line) (lt-ltb _ _ long) };

    fn disk(&self) -> &QuietDisk {
        &self.disk
    }

    fn into_disk(self) -> QuietDisk {
        let Echo { disk, last: _ } = self;
        disk
    }

    fn line(
        self,
        alloc: Global,
        _n: u64,
        line: &[u8],
    ) -> Result<(Echo, Vec<u8>), Stopped<QuietDisk>> {
        let Echo { disk, last } = self;
        match echoed(alloc, last, line) {
            Ok((last, text)) => Ok((Echo { disk, last }, text)),
            Err(Memory) => Err(Stopped::Memory(disk)),
        }
    }

    fn too_long(&self, alloc: Global, _n: u64, _bytes: u64) -> Result<Vec<u8>, Memory> {
        Ok(b"long\n".to_vec(alloc)?)
    }
}

// A copy of the line, and the answer.
fn echoed(alloc: Global, last: Vec<u8>, line: &[u8]) -> Result<(Vec<u8>, Vec<u8>), Memory>
    ensures copy { IfOk result (λ both. both.0.items ≡ line.now) }
    ensures text { IfOk result (λ both. both.1.items ≡ last.items ++ line.now ++ 10 ∷ []) }
{
    let mut text = last;
    text.extend_from_slice(line)?;
    text.push(b'\n')?;
    Ok((line.to_vec(alloc)?, text))
}
