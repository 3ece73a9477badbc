//! What no clause says: that the calls succeed with ample memory, and the generic type at a concrete one.

use super::*;
use std::test::Fail;

#[test]
fn bytes_go_in_and_out(rt: HostRuntime) -> Result<(), Fail> {
    let mut bytes = Bytes::new(rt.alloc());
    assert!(rt; bytes.is_empty());
    bytes.push(7)?;
    bytes.append(b"abc")?;
    assert_eq!(rt; bytes.as_slice(), b"\x07abc".as_slice());
    assert_eq!(rt; bytes.len(), 4);
    let copy = Bytes::from_slice(rt.alloc(), bytes.as_slice())?;
    let held = copy.into_vec();
    assert_eq!(rt; Bytes::from_vec(held).as_slice(), b"\x07abc".as_slice());
    Ok(())
}

#[test]
fn texts_go_in_and_out(rt: HostRuntime) -> Result<(), Fail> {
    let text = Text::from_str(rt.alloc(), "code.img")?;
    assert_eq!(rt; text.len(), 8);
    let again = Text::from_string(text.into_string());
    assert_eq!(rt; again.as_str(), "code.img");
    Ok(())
}

#[test]
fn items_of_bytes(rt: HostRuntime) -> Result<(), Fail> {
    let mut items = Items::new(rt.alloc());
    assert!(rt; items.is_empty());
    items.push(Bytes::from_slice(rt.alloc(), b"one")?)?;
    items.push(Bytes::from_slice(rt.alloc(), b"two")?)?;
    assert_eq!(rt; items.len(), 2);
    let Some(second) = items.get(1) else {
        return Err("no second item".into());
    };
    assert_eq!(rt; second.as_slice(), b"two".as_slice());
    assert!(rt; items.get(2).is_none());
    assert_eq!(rt; items.as_slice().len(), 2);
    let again = Items::from_vec(items.into_vec());
    assert_eq!(rt; again.len(), 2);
    Ok(())
}
