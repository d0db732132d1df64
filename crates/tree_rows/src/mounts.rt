//! As many mounts as endpoints.
use conn_rules::{MountTarget, Mounts};
use fidl_names::{FIRST_MOUNT_END, MAX_LIVE};
use std::test::Fail;

#[test]
fn as_many_mounts_as_endpoints(rt: HostRuntime) -> Result<(), Fail> {
    let target = MountTarget { server: 1, node: 7 };
    let targets = vec![in rt.alloc(); target; MAX_LIVE]?;
    let mounts = Mounts::new(rt.alloc(), &targets)?;
    assert!(rt; mounts.end_of(0) == 0x4000_0000 && mounts.end_of(65535) == 0x4000_ffff);
    assert!(rt; mounts.target_of(65535) == target);
    Ok(())
}
