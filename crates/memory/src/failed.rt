// The failures by sequents (search.rs: `self.cache`).
ghost use Rattle.std.specs.Prelude.{◌≡◌};
ghost use Rattle.logic.specs.Key.{contains};
ghost use Rattle.memory.specs.Meaning.{Wf, failed, StandsIn, key_of};
ghost use Rattle.memory.specs.Shapes.{RecordedOr};

use super::FORMULAS;
use failures::Noted;
use failures::items::items_of;
use zones::Zones;

// `self.cache.contains(&key)`
pub fn known(mem: &[u16], z: Zones) -> bool
    requires { Wf mem.now × StandsIn mem.now z }
    ensures { result ≡ contains (failed mem.now) (key_of mem.now z) }
{
    let s = items_of(&mem[..FORMULAS], z);
    failures::records::known(&mem[FORMULAS..], s)
}

// `self.cache.insert(key)`. False: it is new, and there is no room.
pub fn record_failure(mem: &mut [u16], z: Zones) -> bool
    requires { Wf mem.old × StandsIn mem.old z }
    ensures { RecordedOr mem.old (key_of mem.old z) result mem.new }
{
    let s = items_of(&mem[..FORMULAS], z);
    let r = failures::records::record_failure(&mut mem[FORMULAS..], s);
    !matches!(r, Noted::Full)
}
