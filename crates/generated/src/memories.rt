//! Memory with the generated applications.

ghost use Rattle.std.specs.Prelude.{◌≡◌, ◌++◌, ◌≤◌, ◌<◌, ◌+◌, ◌*◌, [], length, OnOk, IfOk, All};
ghost use Rattle.generated.specs.Generated.{counter_address, application_block, application_blocks, count_of, image};

use crate::applications::{append_application, pad};
use crate::draws::Draws;
use std::alloc::{AllocError, Global};

/// How many bytes memory has.
const MEMORY: usize = 65_536;

// Where an application counts.
fn counter_address(draws: &mut Draws, k: u32) -> u32
    requires few { k < 8 }
    requires count { draws.old.count ≡ 2 * k }
    ensures value { result ≡ counter_address draws.old.seed k }
    ensures seed { draws.new.seed ≡ draws.old.seed }
    ensures count { draws.new.count ≡ 2 * k + 1 }
{
    if k < 4 {
        0x8000_1000 + 256 * draws.below(48)
    } else {
        0x8000_4000 + 256 * draws.below(192)
    }
}

// How far it counts.
fn count_of(draws: &mut Draws, k: u32) -> u32
    requires few { k < 8 }
    requires count { draws.old.count ≡ 2 * k + 1 }
    ensures value { result ≡ count_of draws.old.seed k }
    ensures bound { result ≤ 2047 }
    ensures seed { draws.new.seed ≡ draws.old.seed }
    ensures count { draws.new.count ≡ 2 * k + 2 }
{
    1000 + draws.below(1000)
}

// Appends the block of an application.
fn append_block(
    alloc: Global,
    image: &mut Vec<u8>,
    draws: &mut Draws,
    k: u32,
) -> Result<(), AllocError>
    requires few { k < 8 }
    requires count { draws.old.count ≡ 2 * k }
    ensures items { OnOk result (image.new.items ≡ image.old.items ++ application_block draws.old.seed k) }
    ensures length { OnOk result (length image.new.items ≡ length image.old.items + 256) }
    ensures seed { draws.new.seed ≡ draws.old.seed }
    ensures count { draws.new.count ≡ 2 * k + 2 }
{
    let address = counter_address(draws, k);
    let count = count_of(draws, k);
    append_application(alloc, image, address, count)
}

// The blocks of the applications.
fn append_blocks(alloc: Global, image: &mut Vec<u8>, draws: &mut Draws) -> Result<(), AllocError>
    requires empty { image.old.items ≡ [] }
    requires count { draws.old.count ≡ 0 }
    ensures items { OnOk result (image.new.items ≡ application_blocks draws.old.seed) }
    ensures length { OnOk result (length image.new.items ≡ 2048) }
    ensures seed { OnOk result (draws.new.seed ≡ draws.old.seed) }
    ensures count { OnOk result (draws.new.count ≡ 16) }
{
    for k in 0..8 {
        append_block(alloc, image, draws, k)?;
    }
    Ok(())
}

// Bytes are below 256.
fn bytes_fit(bytes: &[u8])
    ensures { All (λ byte. byte < 256) bytes.now }
{
    let _count = bytes.len();
}

/// Memory as it begins: the block of each application, and zeros. It makes 16 draws.
#[tactic(auto, unfolding(crate::specs::Generated::image))]
pub fn image_of(alloc: Global, draws: &mut Draws) -> Result<Vec<u8>, AllocError>
    requires { draws.old.count ≡ 0 }
    ensures items { IfOk result (λ bytes. bytes.items ≡ image draws.old.seed) }
    ensures length { IfOk result (λ bytes. length bytes.items ≡ 65536) }
    ensures bytes { IfOk result (λ bytes. All (λ byte. byte < 256) bytes.items) }
    ensures seed { OnOk result (draws.new.seed ≡ draws.old.seed) }
    ensures count { OnOk result (draws.new.count ≡ 16) }
{
    let mut bytes = Vec::with_capacity(alloc, MEMORY)?;
    append_blocks(alloc, &mut bytes, draws)?;
    pad(&mut bytes, MEMORY)?;
    bytes_fit(&bytes);
    Ok(bytes)
}
