// For users of this library who keep where mounts go on in a table of their own. The servers here find it in their start.

ghost use Rattle.std.specs.Prelude.{◌≡◌, ◌<◌, ◌≤◌, true, length, slice_get, IfOk, Some};
ghost use Rattle.fidl_names.specs.HandleNumber.{end_of_mount, is_mount_end};

use fidl_names::{MAX_LIVE, NoMemory, end_of_mount};
use std::alloc::Global;
use std::marker::Model;

/// Where a mount goes on: a server, by its index, and one of its nodes, by number.
#[derive(Clone, Copy, PartialEq, Eq)]
pub struct MountTarget {
    pub server: u32,
    pub node: u64,
}

/// The mounts of all servers, by their indices. Contracts see them as the list of their targets.
#[derive(Drop)]
pub struct Mounts {
    targets: Vec<MountTarget>,
}

impl Model for Mounts {
    ghost use Rattle.std.specs.Prelude.{List, ◌≤◌, length};
    ghost use Rattle.fidl_names.specs.declared.limits.TheConstants as limit;
    ghost use Rattle.conn_rules.specs.declared.mounts.MountTarget.{MountTarget};

    ghost Value = { List MountTarget };

    ghost view = { λ mounts. mounts.targets.items };

    ghost invariant = { λ mounts. length mounts.targets.items ≤ limit.MAX_LIVE };
}

impl Mounts {
    /// The mounts with these targets, in this order. There are at most as many as endpoints may
    /// live, since the end of each is one.
    pub fn new(alloc: Global, targets: &[MountTarget]) -> Result<Mounts, NoMemory>
        requires few { length targets.now ≤ MAX_LIVE }
        ensures targets { IfOk result (λ mounts. mounts ≡ targets.now) }
    {
        Ok(Mounts {
            targets: Vec::from_slice(alloc, targets)?,
        })
    }

    /// The endpoint at which a mount goes on: its index behind the first mount end. No client's,
    /// and no token's.
    pub fn end_of(&self, mount: u32) -> u32
        requires there { mount < length self.now }
        ensures end { result ≡ end_of_mount mount }
        ensures numbered { is_mount_end (length self.now) result ≡ true }
    {
        prove!((mount as usize) < self.targets.len());
        end_of_mount(mount)
    }

    /// Where a mount goes on.
    pub fn target_of(&self, mount: u32) -> MountTarget
        requires there { mount < length self.now }
        ensures target { slice_get self.now mount ≡ Some result }
    {
        self.targets[mount as usize]
    }
}
