//! Verifier files.

ghost use Rattle.std.specs.Prelude.{◌≡◌};
ghost use Rattle.config_rules.specs.Rules.{AnswersByRules};
ghost use Rattle.verifier.specs.Files.{verifier_plan, verifier_file};

use att_base::DeviceFault;
use block_memory::Geometry;
use config_rules::{Common, MOST_IMAGES, name_at, names_at, read_common, read_document};
use listed::{Items, Text};
use lock_plan::Ranges;
use std::alloc::Global;

/// What a verifier file says.
#[derive(Debug, Drop)]
pub struct VerifierPlan {
    /// Where memory lies.
    pub geometry: Geometry,
    /// The attested blocks, all of them in memory.
    pub ranges: Ranges,
    /// The name of the key's file.
    pub key: Text,
    /// The greatest counter that was accepted so far.
    pub last: u64,
    /// The name of the challenge's file.
    pub challenge: Text,
    /// The names of the known images' files, 1 to 64.
    pub images: Items<Text>,
}

// The plan of what both kinds of file say and the rest.
fn verifier_plan(common: Common, challenge: Text, images: Items<Text>) -> VerifierPlan
    ensures { result ≡ verifier_plan common challenge images }
{
    let Common { region, key, last } = common;
    VerifierPlan {
        geometry: region.geometry,
        ranges: region.ranges,
        key,
        last,
        challenge,
        images,
    }
}

/// AnswersByRules a verifier file, a TOML document. Keys that no rule names are passed over. A refusal gives the number
/// of the first rule that fails: 1 to 8 are those of `config_rules`, 9 is `challenge`, a file name, and 10 is
/// `images`, an array of 1 to 64 file names.
#[tactic(auto, unfolding(crate::specs::Files::verifier_file))]
pub fn read_verifier(alloc: Global, bytes: &[u8]) -> Result<VerifierPlan, DeviceFault>
    ensures { AnswersByRules (verifier_file bytes.now) result }
{
    let table = read_document(alloc, bytes)?;
    let common = read_common(alloc, &table)?;
    let challenge = match name_at(&table, "challenge") {
        Some(name) => name,
        None => return Err(DeviceFault::Rule(9)),
    };
    let images = match names_at(alloc, &table, "images", 1, MOST_IMAGES) {
        Ok(Some(images)) => images,
        Ok(None) => return Err(DeviceFault::Rule(10)),
        Err(_) => return Err(DeviceFault::Memory),
    };
    let Ok(challenge) = Text::from_str(alloc, challenge) else {
        return Err(DeviceFault::Memory);
    };
    Ok(verifier_plan(common, challenge, images))
}
