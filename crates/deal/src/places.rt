// The least mask at a place of a zone: the other items are dealt out.
ghost use Rattle.std.specs.Prelude.{◌≡◌, ◌≤◌, length};
ghost use Rattle.zones.specs.Zones.{remove};
ghost use Rattle.deal.specs.Deal.{Answers};
ghost use Rattle.deal.specs.Place.{Removable, Without};

use crate::deal;

// The zone without the item at place i.
fn copy_without(zone: &[u16], i: usize, others: &mut [u16; 31])
    requires { Removable zone.now i × (length others.old ≡ 31) }
    ensures { Without zone.now i others.new }
{
    let last = zone.len() - 1;
    others[..i].copy_from_slice(&zone[..i]);
    others[i..last].copy_from_slice(&zone[i + 1..]);
}

// The least mask that deals the items but for the one at place i out to l and r.
pub fn deal_at(zone: &[u16], i: usize, l: &[u16], r: &[u16]) -> Option<u32>
    requires { Removable zone.now i }
    ensures { Answers (remove i zone.now) l.now r.now result }
{
    let mut others = [0u16; 31];
    copy_without(zone, i, &mut others);
    let last = zone.len() - 1;
    deal(&others[..last], l, r)
}
