//! What no clause says: that the calls succeed with ample memory.

use super::*;
use std::test::Fail;

#[test]
fn segments_are_kept_in_order(rt: HostRuntime) -> Result<(), Fail> {
    let mut program = Program::new(rt.alloc(), 0x8000_0000);
    let code = Vec::from_slice(rt.alloc(), b"code")?;
    program.push(Segment::new(0x8000_0000, code))?;
    program.push(Segment::new(0x9000_0000, Vec::new(rt.alloc())))?;
    assert_eq!(rt; program.entry, 0x8000_0000);
    assert_eq!(rt; program.segments.len(), 2);
    let Some(first) = program.segments.get(0) else {
        return Err("no segment".into());
    };
    assert_eq!(rt; first.addr, 0x8000_0000);
    assert_eq!(rt; first.bytes.as_slice(), b"code".as_slice());
    Ok(())
}
