// What a signer that refuses says, where no row of a signer shows it.
use sp_hss::HssRefused;
use std::test::Fail;

#[test]
fn want_of_memory_is_told(rt: HostRuntime) -> Result<(), Fail> {
    let memory = format!(in rt.alloc(); "{}", HssRefused::Memory)?;
    assert!(rt; memory.as_str() == "no memory is left");
    Ok(())
}
