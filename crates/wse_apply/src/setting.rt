// What an edit is performed against, beside the tree.
ghost use Rattle.std.specs.Prelude.{◌≡◌};
ghost use Rattle.wse_path.specs.Versions.{version_of};
ghost use Rattle.wse_locks.specs.Locks.{is_held};

use std::marker::Model;
use wse_locks::Locks;
use wse_path::{Encoding, Limits, RelPath, Versions};

/// What an edit is performed against, beside the tree. Versions are those from before the edit.
#[derive(Drop)]
pub struct Setting<'a> {
    versions: &'a Versions,
    locks: &'a Locks,
    limits: Limits,
    by: u32,
    encoding: Encoding,
}

impl<'a> Model for Setting<'a> {
    ghost use Rattle.wse_apply.specs.Setting.{SettingState};

    ghost Value = { SettingState };

    ghost view = { λ a. record {
      versions = a.versions.now.entries;
      locks = a.locks.now.entries;
      limits = a.limits;
      by = a.by;
      encoding = a.encoding;
    } };
}

impl<'a> Setting<'a> {
    pub fn new(
        versions: &'a Versions,
        locks: &'a Locks,
        limits: &Limits,
        by: u32,
        encoding: Encoding,
    ) -> Setting<'a>
        ensures { result ≡ record {
          versions = versions.now.entries;
          locks = locks.now.entries;
          limits = limits.now;
          by = by;
          encoding = encoding;
        } }
    {
        Setting {
            versions,
            locks,
            limits: *limits,
            by,
            encoding,
        }
    }

    pub fn version(&self, path: &RelPath) -> u32
        ensures { result ≡ version_of self.now.versions path.now }
    {
        self.versions.get(path)
    }

    /// Whether another participant holds the path.
    pub fn is_held(&self, path: &RelPath) -> bool
        ensures { result ≡ is_held self.now.locks self.now.by path.now }
    {
        match self.locks.holder(path) {
            Some(holder) => holder != self.by,
            None => false,
        }
    }

    pub fn limits(&self) -> Limits
        ensures { result ≡ self.now.limits }
    {
        self.limits
    }

    pub fn encoding(&self) -> Encoding
        ensures { result ≡ self.now.encoding }
    {
        self.encoding
    }
}
