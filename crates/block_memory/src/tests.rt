//! What no clause says: that each call succeeds, and values worked out by hand.

use super::*;
use std::test::Fail;

#[test]
fn geometry_at_its_limits(rt: HostRuntime) {
    for (base, size, blocks, made) in [
        (0, 16, 1, true),
        (0, 8, 1, false),
        (0, 24, 1, false),
        (0, 65_536, 16, true),
        (0, 131_072, 1, false),
        (0, 65_536, 17, false),
        (0, 16, 0, false),
        (0, 256, 4096, true),
        (0, 16, 4097, false),
        (0x8000_0010, 16, 1, true),
        (0x8000_0008, 16, 1, false),
        (0xfff0_0000, 65_536, 16, true),
        (0xffff_fff0, 16, 1, true),
        (0xffff_fff0, 16, 2, false),
    ] {
        let found = Geometry::new(base, size, blocks);
        assert_eq!(rt; found.is_some(), made, "at {base} {size} {blocks}");
        if let Some(geometry) = found {
            assert_eq!(rt; geometry.base(), base);
            assert_eq!(rt; geometry.size(), size);
            assert_eq!(rt; geometry.blocks(), blocks);
        }
    }
}

#[test]
fn accesses_at_the_ends(rt: HostRuntime) -> Result<(), Fail> {
    let geometry = Geometry::new(0xffff_ffe0, 16, 2).ok_or("no geometry")?;
    assert_eq!(rt; geometry.byte_count(), 32);
    for (addr, block) in [
        (0, None),
        (0xffff_ffdf, None),
        (0xffff_ffe0, Some(0)),
        (0xffff_ffef, Some(0)),
        (0xffff_fff0, Some(1)),
        (0xffff_ffff, Some(1)),
    ] {
        assert_eq!(rt; geometry.block_of(addr), block, "at {addr}");
    }
    for (addr, width, fits, divisible) in [
        (0xffff_ffdc, Width::Word, false, true),
        (0xffff_ffde, Width::Word, false, false),
        (0xffff_ffe0, Width::Word, true, true),
        (0xffff_fffc, Width::Word, true, true),
        (0xffff_fffd, Width::Word, false, false),
        (0xffff_fffd, Width::Half, true, false),
        (0xffff_fffe, Width::Half, true, true),
        (0xffff_ffff, Width::Half, false, false),
        (0xffff_ffff, Width::Byte, true, true),
        (0, Width::Byte, false, true),
    ] {
        assert_eq!(rt; geometry.fits(addr, width), fits, "at {addr}");
        assert_eq!(rt; aligned(addr, width), divisible, "at {addr}");
    }
    Ok(())
}

#[test]
fn bytes_are_little_endian(rt: HostRuntime) -> Result<(), Fail> {
    let Some(geometry) = Geometry::new(0x1000, 16, 2) else {
        return Err("no geometry".into());
    };
    let image = *b"ABCDEFGHIJKLMNOPQRSTUVWXYZ012345";
    let mut memory = BlockMemory::new(rt.alloc(), geometry, &image)?;
    assert_eq!(rt; memory.geometry(), geometry);
    assert_eq!(rt; memory.load(0x1000, Width::Word), 0x4443_4241);
    assert_eq!(rt; memory.load(0x1002, Width::Half), 0x4443);
    assert_eq!(rt; memory.load(0x101f, Width::Byte), 0x35);

    memory.store(0x1004, Width::Word, 0x8765_4321);
    memory.store(0x1010, Width::Half, 0xbeef);
    memory.store(0x1013, Width::Byte, 0xff);
    assert_eq!(rt; memory.load(0x1006, Width::Half), 0x8765);
    assert_eq!(rt; memory.load(0x1010, Width::Word), 0xff53_beef);

    let mut block = [0; 16];
    memory.copy_block(0, &mut block);
    assert_eq!(rt; &block, b"ABCD\x21\x43\x65\x87IJKLMNOP");
    memory.copy_block(1, &mut block);
    assert_eq!(rt; &block, b"\xef\xbeS\xffUVWXYZ012345");
    Ok(())
}

// How many bytes an access has.
fn count(width: Width) -> usize {
    match width {
        Width::Byte => 1,
        Width::Half => 2,
        Width::Word => 4,
    }
}

// Puts the lowest bytes of the value into one buffer of all bytes.
fn put(plain: &mut [u8], offset: usize, width: Width, value: u32) {
    let bytes = value.to_le_bytes();
    for (byte, new) in plain
        .iter_mut()
        .skip(offset)
        .zip(bytes.iter().take(count(width)))
    {
        *byte = *new;
    }
}

// The value of an access to it.
fn value_at(plain: &[u8], offset: usize, width: Width) -> u32 {
    let mut value = 0_u32;
    for byte in plain.iter().skip(offset).take(count(width)).rev() {
        value = value.wrapping_mul(256).wrapping_add(u32::from(*byte));
    }
    value
}

#[test]
fn random_accesses_agree_with_one_buffer(rt: HostRuntime) -> Result<(), Fail> {
    let Some(geometry) = Geometry::new(0x1000, 16, 4) else {
        return Err("no geometry".into());
    };
    let mut memory = BlockMemory::new(rt.alloc(), geometry, &[0; 64])?;
    let mut plain = [0; 64];
    let mut random = 1_u32;
    for _ in 0..400 {
        random = random.wrapping_mul(1_664_525).wrapping_add(1_013_904_223);
        let (width, value) = match random >> 30 {
            0 => (Width::Byte, random % 256),
            1 => (Width::Half, random % 65_536),
            _ => (Width::Word, random),
        };
        let addr = 0x1000 + (random >> 20) % 64;
        if !memory.geometry().fits(addr, width) || !aligned(addr, width) {
            continue;
        }
        memory.store(addr, width, value);
        put(&mut plain, (addr - 0x1000) as usize, width, value);
        for word in 0..16 {
            let at = 0x1000 + 4 * word;
            if memory.geometry().fits(at, Width::Word) && aligned(at, Width::Word) {
                let want = value_at(&plain, 4 * word as usize, Width::Word);
                assert_eq!(rt; memory.load(at, Width::Word), want, "at {at}");
            }
        }
    }
    Ok(())
}

#[test]
fn laws_are_called() {
    access_in_one_block();
    block_in_memory();
    reads_keep_memory();
}
