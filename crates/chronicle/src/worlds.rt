//! A device's world, and a chronicle: a world with a list of entries.

use block_memory::Geometry;
use history::Entry;
use lock_plan::Ranges;
use std::marker::Model;

/// The most entries that a history may have.
const MOST_ENTRIES: u64 = 4_000_000;

/// Where the attested blocks of a memory lie.
#[derive(Clone, Copy, Debug, PartialEq, Eq)]
pub struct Shape {
    /// The first address of memory.
    pub base: u32,
    /// The bytes of a block.
    pub size: u32,
    /// The ranges of attested blocks, by rising address.
    pub ranges: Ranges,
}

/// A device's memory as it begins: its geometry, the ranges of attested blocks, the bytes that memory has before the
/// first entry, and how many entries the history may have. Clauses see it as a `Setting`.
#[derive(Drop)]
pub struct World {
    geometry: Geometry,
    ranges: Ranges,
    image: Vec<u8>,
    cap: u64,
}

impl Model for World {
    ghost use Rattle.history.specs.Layout.{Setting, IsSetting};
    ghost use Rattle.chronicle.specs.Settings.{setting_of};

    ghost Value = { Setting };

    ghost view = { λ w. setting_of w.geometry w.ranges w.image.items w.cap };

    ghost invariant = { λ w. IsSetting (setting_of w.geometry w.ranges w.image.items w.cap) };
}

impl World {
    ghost use Rattle.std.specs.Prelude.{◌≡◌};
    ghost use Rattle.std.specs.Option.{SomeIff};
    ghost use Rattle.history.specs.Layout.{IsSetting};
    ghost use Rattle.chronicle.specs.Settings.{setting_of};
    ghost use Rattle.chronicle.specs.Worlds.{shape_of};

    /// The world with these parts. None exactly where the image isn't as long as memory, the last range ends past
    /// memory, or the cap isn't 1 to 4,000,000.
    pub fn new(geometry: Geometry, ranges: Ranges, image: Vec<u8>, cap: u64) -> Option<World>
        ensures { let made = setting_of geometry ranges image.items cap in
            SomeIff result (IsSetting made) made }
    {
        if ranges.end() > geometry.blocks() || image.len() != geometry.byte_count() as usize {
            return None;
        }
        if cap == 0 || cap > MOST_ENTRIES {
            return None;
        }
        Some(World {
            geometry,
            ranges,
            image,
            cap,
        })
    }

    /// Where memory lies.
    pub fn geometry(&self) -> Geometry
        ensures value { result ≡ self.now.layout }
        ensures setting { IsSetting self.now }
    {
        self.geometry
    }

    /// The ranges of attested blocks, by rising address.
    pub fn ranges(&self) -> &Ranges
        ensures value { result.now ≡ self.now.ranges }
        ensures setting { IsSetting self.now }
    {
        &self.ranges
    }

    /// The bytes that memory has before the first entry, by rising address.
    pub fn image(&self) -> &[u8]
        ensures value { result.now ≡ self.now.image }
        ensures setting { IsSetting self.now }
    {
        &self.image
    }

    /// How many entries the history may have.
    pub fn cap(&self) -> u64
        ensures value { result ≡ self.now.cap }
        ensures setting { IsSetting self.now }
    {
        self.cap
    }

    /// Where the attested blocks lie.
    pub fn shape(&self) -> Shape
        ensures value { result ≡ shape_of self.now }
        ensures setting { IsSetting self.now }
    {
        Shape {
            base: self.geometry.base(),
            size: self.geometry.size(),
            ranges: self.ranges,
        }
    }
}

/// A world with a list of entries, the oldest first. The list may be any: `IsLegal` says that it is a
/// history of the world. Clauses see it as a `Recorded` of `specs/Worlds.antt`.
#[derive(Drop)]
pub struct Chronicle {
    world: World,
    entries: Vec<Entry>,
}

impl Model for Chronicle {
    ghost use Rattle.chronicle.specs.Worlds.{Recorded};

    ghost Value = { Recorded };

    ghost view = { λ c. record { world = c.world; entries = c.entries.items } };
}

impl Chronicle {
    ghost use Rattle.std.specs.Prelude.{◌≡◌, length};
    ghost use Rattle.history.specs.Layout.{IsSetting};

    /// The chronicle of this world with these entries.
    pub fn new(world: World, entries: Vec<Entry>) -> Chronicle
        ensures world { result.world ≡ world }
        ensures entries { result.entries ≡ entries.items }
    {
        Chronicle { world, entries }
    }

    /// Its world.
    pub fn world(&self) -> &World
        ensures value { result.now ≡ self.now.world }
        ensures setting { IsSetting self.now.world }
    {
        let _cap = self.world.cap();
        &self.world
    }

    /// Its entries, the oldest first.
    pub fn entries(&self) -> &[Entry]
        ensures { result.now ≡ self.now.entries }
    {
        &self.entries
    }

    /// How many entries it has.
    pub fn length(&self) -> u64
        ensures { result ≡ length self.now.entries }
    {
        self.entries.len() as u64
    }
}

/// Threads may share these.
fn crosses<X: Send + Sync>(_value: &X) {}

fn world_crosses(world: &World, chronicle: &Chronicle, entry: &Entry) {
    crosses(world);
    crosses(chronicle);
    crosses(entry);
}
