// A store between lines.
ghost use Rattle.wse_uri.specs.FileUrl.{IsPlainFileUrl};

use url::Url;
use wse_disk::Disk;
use wse_engine::Engine;

/// A store at rest between lines, and the root below which the URIs of its lines name paths: a file URL without host, query
/// and fragment. This project's own.
pub struct StoreServer<D: Disk> {
    pub engine: Engine<D>,
    pub root: Url,
    ghost plain: { IsPlainFileUrl root },
}
