//! What is told of a net of 20,000 buffers.

use crate::telling::many_told;
use std::test::Fail;

#[test]
fn a_large_net(rt: HostRuntime) -> Result<(), Fail> {
    let Some(told) = many_told(rt.alloc(), 20_000)? else {
        assert!(rt; false, "no layout");
        return Ok(());
    };
    assert_eq!(rt; told.as_str().lines().count(), 101);
    assert!(rt;
        told.as_str().starts_with(
            "Open c0 y c1 y: net net hangs in 20000 pieces: c0 y | c1 y | c2 y | c3 y | c4 y | c5 y | c6 y | c7 y | and 19992 pieces more; "
        )
    );
    assert!(rt;
        told.as_str()
            .ends_with("[o.cif:3, o.cif:203]\nand 19899 more\n")
    );
    Ok(())
}
