//! A caller of any port: what it knows of the new list follows from the port's clauses alone.

ghost use Rattle.std.specs.Prelude.{◌≡◌, ℕ, ◌++◌, [], ◌∷◌, IsTrue, IfSome};
ghost use Rattle.history.specs.declared.events.Width.TheVariants.{Word};
ghost use Rattle.history.specs.declared.events.Act.TheVariants as act;
ghost use Rattle.history.specs.Layout.{fits, is_aligned};
ghost use Rattle.history.specs.Memory.{own};
ghost use Rattle.history.specs.Legal.{IsLegal};
ghost use Rattle.chronicle.specs.Ports.{IsApplication, entry_by};

use super::*;
use std::test::Fail;

/// Loads a word and stores it at another address, once. None where the history fills, or the other block
/// is locked.
fn move_word<P: MemPort>(port: &mut P, from: u32, to: u32) -> Option<u32>
    requires actor { IsApplication (P.low port.old) (P.high port.old) }
    requires from_fits { IsTrue (fits (P.world port.old).layout from Word) }
    requires from_aligned { IsTrue (is_aligned from Word) }
    requires to_fits { IsTrue (fits (P.world port.old).layout to Word) }
    requires to_aligned { IsTrue (is_aligned to Word) }
    ensures owner { P.owner port.new ≡ P.owner port.old }
    ensures legal { IsLegal (P.world port.old) (P.seen port.new) }
    ensures own { IfSome result (λ value. own (P.seen port.new) (P.low port.old) (P.high port.old)
        ≡ own (P.seen port.old) (P.low port.old) (P.high port.old)
        ++ entry_by (P.low port.old) (act.Load from Word value) ∷ []
        ++ entry_by (P.low port.old) (act.Store to Word value) ∷ []) }
{
    answers_add_own_entries();
    let Read::Done { value, .. } = port.load(from, Width::Word) else {
        return None;
    };
    let Stored::Done { .. } = port.store(to, Width::Word, value) else {
        return None;
    };
    Some(value)
}

fn range_of(first: u32, attested: u32) -> Range {
    Range { first, attested }
}

#[test]
fn a_world_has_its_limits(rt: HostRuntime) -> Result<(), Fail> {
    let geometry = Geometry::new(0x8000_0000, 16, 4).ok_or("no geometry")?;
    for (first, second, bytes, cap, valid) in [
        (range_of(0, 2), range_of(3, 1), 64, 1, true),
        (range_of(0, 1), range_of(2, 1), 64, 4_000_000, true),
        (range_of(0, 2), range_of(3, 2), 64, 1, false),
        (range_of(0, 2), range_of(3, 1), 63, 1, false),
        (range_of(0, 2), range_of(3, 1), 65, 1, false),
        (range_of(0, 2), range_of(3, 1), 64, 0, false),
        (range_of(0, 2), range_of(3, 1), 64, 4_000_001, false),
    ] {
        let ranges = Ranges::new(&[first, second]).ok_or("no ranges")?;
        let image = vec![in rt.alloc(); 0u8; bytes]?;
        let made = World::new(geometry, ranges, image, cap).is_some();
        assert_eq!(rt; made, valid, "{bytes} {cap}");
    }
    Ok(())
}

#[test]
fn a_chronicle_shows_what_it_was_made_of(rt: HostRuntime) -> Result<(), Fail> {
    let geometry = Geometry::new(0x1000, 32, 3).ok_or("no geometry")?;
    let ranges = Ranges::new(&[range_of(1, 2)]).ok_or("no ranges")?;
    let image = vec![in rt.alloc(); 7u8; 96]?;
    let world = World::new(geometry, ranges, image, 9).ok_or("no world")?;
    let tick = Entry {
        actor: 0,
        act: Act::Tick,
    };
    let kept = Chronicle::new(world, vec![in rt.alloc(); tick, tick]?);
    let shape = Shape {
        base: 0x1000,
        size: 32,
        ranges,
    };
    assert_eq!(rt; kept.world().shape(), shape);
    assert_eq!(rt; kept.world().geometry(), geometry);
    assert_eq!(rt; kept.world().ranges().range(0), range_of(1, 2));
    assert_eq!(rt; kept.world().image(), [7u8; 96].as_slice());
    assert_eq!(rt; kept.world().cap(), 9);
    assert_eq!(rt; kept.entries(), [tick, tick].as_slice());
    assert_eq!(rt; kept.length(), 2);
    Ok(())
}
