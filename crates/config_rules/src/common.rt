//! What device files and verifier files both say.

ghost use Rattle.std.specs.Prelude.{IfOk};
ghost use Rattle.toml.specs.View.{table_view};
ghost use Rattle.config_rules.specs.Rules.{AnswersByRules, IsRegion, common};

use crate::region::{Region, read_region};
use crate::values::{name_at, number_at};
use att_base::DeviceFault;
use listed::Text;
use std::alloc::Global;
use toml::Table;

/// The largest number of `last`: the largest integer of a document.
const MOST_LAST: u64 = 9_223_372_036_854_775_807;

/// The most images that a device or a verifier knows.
pub const MOST_IMAGES: usize = 64;

/// What device files and verifier files both say.
#[derive(Debug, Drop)]
pub struct Common {
    /// Where memory lies, and which blocks of it are attested.
    pub region: Region,
    /// The name of the key's file.
    pub key: Text,
    /// The greatest counter so far.
    pub last: u64,
}

/// Reads rules 2 to 8.
#[tactic(auto, unfolding(crate::specs::Rules::common))]
pub fn read_common(alloc: Global, table: &Table) -> Result<Common, DeviceFault>
    ensures value { AnswersByRules (common (table_view table.now)) result }
    ensures region { IfOk result (λ found. IsRegion found.region) }
{
    let region = read_region(table)?;
    let Some(key) = name_at(table, "key") else {
        return Err(DeviceFault::Rule(7));
    };
    let Some(last) = number_at(table, "last", 0, MOST_LAST) else {
        return Err(DeviceFault::Rule(8));
    };
    let Ok(key) = Text::from_str(alloc, key) else {
        return Err(DeviceFault::Memory);
    };
    Ok(Common { region, key, last })
}
