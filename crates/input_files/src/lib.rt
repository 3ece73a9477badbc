//! Files that several commands read: a key, a challenge, images.
//!
//! Each call reads by a step of the plans ([`specs/InputFiles.antt`]), so its clause says which names it asks for, what
//! comes of them, and that files were only read.
#![tactic(auto)]

mod challenges;
mod images;
mod keys;

pub use challenges::read_challenge;
pub use images::{image_shape, read_images};
pub use keys::read_key;
