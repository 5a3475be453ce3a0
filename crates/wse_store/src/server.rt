// The server of a store.
ghost use Rattle.std.specs.Prelude.{◌≡◌, ◌≢◌, ◌≤◌, false, IfOk};
ghost use Rattle.wse_disk.specs.Told.{IsTold};
ghost use Rattle.wse_json.specs.declared.shape.Shape.{Shape};
ghost use Rattle.wse_path.specs.declared.command.Command.{Command};
ghost use Rattle.wse_txn.specs.Command.{StandsForOneOf};
ghost use Rattle.wse_txn.specs.Stands.{StandsFor};
ghost use Rattle.wse_engine.specs.Engine.{IsEngine};
ghost use Rattle.wse_history.specs.Step.{outcome, step};
ghost use Rattle.wse_stream.specs.Causes.{CountsFault};
ghost use Rattle.wse_stream.specs.Rests.{Rests, Stretches, StaysTold};
ghost use Rattle.wse_server.specs.Stopping.{disk_after, is_disk_stop};
ghost use Rattle.wse_uri.specs.FileUrl.{IsPlainFileUrl};
ghost use Rattle.wse_reply.specs.Reply.{reply_text};
ghost use Rattle.wse_reply.specs.declared.reply.Reply.TheVariants as replies;

use crate::store::StoreServer;
use std::alloc::Global;
use url::Url;
use wse_disk::Disk;
use wse_engine::{Engine, ExecFault};
use wse_json::{Shape, read_command};
use wse_path::{Command, Memory};
use wse_reply::{Reply, reply_text};
use wse_server::{Server, Stopped};

/// The server of the engine, for URIs below the root.
pub fn server_of<D: Disk>(engine: Engine<D>, root: Url) -> StoreServer<D>
    requires { IsPlainFileUrl root }
    ensures engine { result.engine ≡ engine }
    ensures root { result.root ≡ root }
{
    StoreServer { engine, root }
}

/// The answer to line `n`, which leaves the engine as it is.
fn answered<D: Disk>(
    alloc: Global,
    engine: Engine<D>,
    root: Url,
    n: u64,
    reply: Reply,
) -> Result<(StoreServer<D>, Vec<u8>), Stopped<D>>
    requires { IsPlainFileUrl root }
    ensures engine { IfOk result (λ done. done.0.engine ≡ engine) }
    ensures root { IfOk result (λ done. done.0.root ≡ root) }
    ensures text { IfOk result (λ done. done.1.items ≡ reply_text n reply) }
    ensures disk { disk_after (λ server. server.engine.disk) result ≡ engine.disk }
    ensures cause { is_disk_stop result ≡ false }
{
    match reply_text(alloc, n, &reply) {
        Ok(text) => Ok((server_of(engine, root), text.into_vec())),
        Err(Memory) => Err(Stopped::Memory(engine.into_disk())),
    }
}

/// The answer to line `n`, which is no command, and leaves the engine as it is.
fn refused<D: Disk>(
    alloc: Global,
    engine: Engine<D>,
    root: Url,
    n: u64,
    why: Shape,
) -> Result<(StoreServer<D>, Vec<u8>), Stopped<D>>
    requires { IsPlainFileUrl root }
    ensures told { IfOk result (λ done. why ≢ Shape.Memory) }
    ensures engine { IfOk result (λ done. done.0.engine ≡ engine) }
    ensures root { IfOk result (λ done. done.0.root ≡ root) }
    ensures text { IfOk result (λ done. done.1.items ≡ reply_text n (replies.Shape why)) }
    ensures disk { disk_after (λ server. server.engine.disk) result ≡ engine.disk }
    ensures stands { IsEngine (D.told engine.disk) engine.area engine.gate engine.state }
    ensures cause { is_disk_stop result ≡ false }
{
    let _ = engine.disk();
    match why {
        Shape::Memory => Err(Stopped::Memory(engine.into_disk())),
        why => answered(alloc, engine, root, n, Reply::Shape(why)),
    }
}

/// Does the command, and gives the answer to line `n`.
fn done<D: Disk>(
    alloc: Global,
    engine: Engine<D>,
    root: Url,
    n: u64,
    command: Command,
) -> Result<(StoreServer<D>, Vec<u8>), Stopped<D>>
    requires { IsPlainFileUrl root }
    ensures state { IfOk result (λ done. done.0.engine.state ≡ step engine.limits engine.state command) }
    ensures limits { IfOk result (λ done. done.0.engine.limits ≡ engine.limits) }
    ensures root { IfOk result (λ done. done.0.root ≡ root) }
    ensures text { IfOk result (λ done. done.1.items
        ≡ reply_text n (replies.Answer (outcome engine.limits engine.state command).answer)) }
    ensures images { Stretches (D.told engine.disk) (D.told (disk_after (λ server. server.engine.disk) result))
        (StandsForOneOf engine.state (step engine.limits engine.state command)) }
    ensures told { IfOk result (λ done. StaysTold (D.told engine.disk) (D.told done.0.engine.disk)) }
    ensures later { D.moment_of engine.disk ≤ D.moment_of (disk_after (λ server. server.engine.disk) result) }
    ensures cause { CountsFault (is_disk_stop result) (D.faults engine.disk)
        (D.faults (disk_after (λ server. server.engine.disk) result)) }
{
    match engine.exec(alloc, &command) {
        Ok((engine, answer)) => answered(alloc, engine, root, n, Reply::Answer(answer)),
        Err(ExecFault::Memory(engine)) => Err(Stopped::Memory(engine.into_disk())),
        Err(ExecFault::Disk(disk)) => Err(Stopped::Disk(disk)),
    }
}

impl<D: Disk> Server<D> for StoreServer<D> {
    ghost use Rattle.std.specs.Prelude.{length, cond};
    ghost use Rattle.std.proofs.Common.{ap};
    ghost use Rattle.std.proofs.lemmas.Bool.{lt-ltb};
    ghost use Rattle.wse_element.specs.State.{State};
    ghost use Rattle.wse_json.specs.Commands.{command_in};
    ghost use Rattle.wse_stream.specs.Longest.{longest_line};
    ghost use Rattle.wse_store.specs.Store.{Setting, serving, after_command};

    ghost State = { State };

    ghost Setting = { Setting };

    ghost machine = { serving };

    ghost setting_of = { λ server. record { root = server.root; limits = server.engine.limits } };

    ghost state_of = { λ server. server.engine.state };

    ghost disk_of = { λ server. server.engine.disk };

    ghost keeps = { λ setting s line long.
        ap (λ too_long. cond too_long s (after_command setting.limits s (command_in setting.root line)))
        (lt-ltb longest_line (length line) long) };

    fn disk(&self) -> &D {
        self.engine.disk()
    }

    fn into_disk(self) -> D {
        let StoreServer { engine, root: _ } = self;
        engine.into_disk()
    }

    fn line(
        self,
        alloc: Global,
        n: u64,
        line: &[u8],
    ) -> Result<(StoreServer<D>, Vec<u8>), Stopped<D>> {
        let StoreServer { engine, root } = self;
        match read_command(alloc, &root, line) {
            Ok(command) => done(alloc, engine, root, n, command),
            Err(why) => refused(alloc, engine, root, n, why),
        }
    }

    fn too_long(&self, alloc: Global, n: u64, bytes: u64) -> Result<Vec<u8>, Memory> {
        Ok(reply_text(alloc, n, &Reply::TooLong { bytes })?.into_vec())
    }
}
