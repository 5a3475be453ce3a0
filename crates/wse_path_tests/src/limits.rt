use std::test::Fail;
use wse_path::Limits;

#[test]
fn the_limits_have_these_numbers(rt: HostRuntime) -> Result<(), Fail> {
    let limits = Limits::standard();
    assert!(rt; limits.files == 65_536 && limits.file_bytes == 16 * 1024 * 1024);
    assert!(rt; limits.tree_bytes == 256 * 1024 * 1024 && limits.known == 512 * 1024 * 1024);
    assert!(rt; limits.weight == 512 * 1024 * 1024 && limits.serial == 1_073_741_823);
    Ok(())
}
