//! Images, with the tags of another implementation under the key `key`.

ghost use Rattle.std.specs.Prelude.{◌≡◌, ◌+◌, ◌<◌, length, IfOk};

use super::*;
use chronicle::Discipline;
use lock_plan::{Range, Ranges};
use std::process::Abort;
use std::test::Fail;

const NONCE: [u8; 16] = [0, 1, 2, 3, 4, 5, 6, 7, 8, 9, 10, 11, 12, 13, 14, 15];

// Of 48 bytes in blocks 1, 2 and 5 that are zero but for 2a at 40.
const SPOT_TAG: &str = "9214a4b427bdee4a60192c4a66f938ab4832f30d88a81840cee3084aed5abea3";

// Of 16 bytes in block 0 that are zero but for 3f at 0.
const LAST_TAG: &str = "009375598572598347bb73a61ec97e00b6584bfe881775fdf921b1dc82c1e023";

// Blocks of 16 bytes in these ranges.
fn shape(list: &[Range]) -> Result<Shape, Fail> {
    let ranges = Ranges::new(list).ok_or("no ranges")?;
    Ok(Shape {
        base: 0x8000_0000,
        size: 16,
        ranges,
    })
}

fn two_ranges() -> Result<Shape, Fail> {
    let first = Range {
        first: 1,
        attested: 2,
    };
    let second = Range {
        first: 5,
        attested: 1,
    };
    shape(&[first, second])
}

fn report(
    shape: Shape,
    discipline: Discipline,
    counter: u64,
    end: u64,
    tag: &str,
) -> Result<Report, Fail> {
    let nonce = NONCE;
    let mut bytes = [0u8; 32];
    hex::decode_to_slice(tag.as_bytes(), &mut bytes).map_err(|_| "no tag")?;
    Ok(Report {
        discipline,
        counter,
        nonce,
        shape,
        start: 1,
        end,
        tag: bytes,
    })
}

// Adds so many bytes, zero but for one.
fn add_with(
    set: &mut ImageSet,
    alloc: Global,
    name: &str,
    count: usize,
    place: usize,
    spot: u8,
) -> Result<u32, Fail>
    requires { length set.old.images < 100 }
    ensures { IfOk result (λ _. length set.new.images ≡ length set.old.images + 1) }
{
    let mut bytes = vec![in alloc; 0u8; count]?;
    if let Some(byte) = bytes.get_mut(place) {
        *byte = spot;
    }
    match set.add(name, bytes) {
        Ok(position) => Ok(position),
        Err(_) => Err("refused".into()),
    }
}

#[test]
fn the_first_image_with_the_tag_is_found(rt: HostRuntime) -> Result<(), Fail> {
    let shape = two_ranges()?;
    let mut set = ImageSet::new(rt.alloc(), shape);
    let mut found = report(shape, Discipline::Inc, 9, 6, SPOT_TAG)?;
    assert_eq!(rt; set.find(b"key", &found), None);
    assert_eq!(rt; add_with(&mut set, rt.alloc(), "zero", 48, 0, 0)?, 0);
    assert_eq!(rt; add_with(&mut set, rt.alloc(), "spot", 48, 40, 0x2a)?, 1);
    assert_eq!(rt; add_with(&mut set, rt.alloc(), "again", 48, 40, 0x2a)?, 2);
    assert_eq!(rt; set.find(b"key", &found), Some(1));
    assert_eq!(rt; set.name(1), "spot");
    assert_eq!(rt; set.shape(), shape);
    assert_eq!(rt; set.find(b"kex", &found), None);
    found.shape.size = 32;
    assert_eq!(rt; set.find(b"key", &found), None);
    Ok(())
}

// What a set of one image, 48 zeros named `zero`, refuses so many bytes of this name for.
fn refusal(alloc: Global, count: usize, name: &str) -> Result<Option<ImageFault>, Fail> {
    let mut set = ImageSet::new(alloc, two_ranges()?);
    add_with(&mut set, alloc, "zero", 48, 0, 0)?;
    let bytes = vec![in alloc; 0u8; count]?;
    let refused = set.add(name, bytes).err();
    if set.len() != 1 {
        return Err("it was added".into());
    }
    Ok(refused)
}

// One byte less, a block more than the attested ones, and the gap's two with them.
#[test]
fn refusals_come_in_order(rt: HostRuntime) -> Result<(), Fail> {
    for (count, name, fault) in [
        (47usize, "zero", ImageFault::Length),
        (64, "spot", ImageFault::Length),
        (80, "spot", ImageFault::Length),
        (48, "zero", ImageFault::NameTwice),
    ] {
        assert_eq!(rt;
            refusal(rt.alloc(), count, name)?,
            Some(fault),
            "{count} {name}"
        );
    }
    Ok(())
}

// One block.
fn one_block() -> Result<Shape, Fail> {
    shape(&[Range {
        first: 0,
        attested: 1,
    }])
}

#[test]
fn sixty_four_images(rt: HostRuntime) -> Result<(), Fail> {
    let mut set = ImageSet::new(rt.alloc(), one_block()?);
    for k in 0u8..64 {
        if set.len() >= 64 {
            return Err("too many".into());
        }
        let name = format!(in rt.alloc(); "{k}")?;
        let position = add_with(&mut set, rt.alloc(), name.as_str(), 16, 0, k)?;
        assert_eq!(rt; position, u32::from(k));
    }
    let last = report(one_block()?, Discipline::All, 7, 3, LAST_TAG)?;
    assert_eq!(rt; set.find(b"key", &last), Some(63));
    Ok(())
}
