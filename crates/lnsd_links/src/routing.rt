// Putting released effects into the rings of their recipients.
ghost use Rattle.std.specs.Prelude.{◌≡◌, ◌<◌, length, IfSome};
ghost use Rattle.flusher.specs.Released.{effect_of, effects_of_all};
ghost use Rattle.lnsd_links.specs.Routing.{AreMarked, IsRouted, IsRoutedOne};

use crate::Directory;
use flusher::Released;
use gateway_wire::Recipient;
use outbox::Outlet;

/// Puts an effect into the ring of its recipient, and returns the ring's number. `None` if there is
/// no such ring, or if it is full: the effect is lost.
fn route_one(directory: &Directory, outlets: &mut [Outlet], released: Released) -> Option<usize>
    ensures routed { IsRoutedOne directory.now (effect_of released) result outlets.old
        outlets.new }
    ensures within { IfSome result (λ ring. ring < length outlets.old) }
{
    let number = directory.ring_of(&Recipient::of(released.effect()))?;
    if number >= outlets.len() {
        return None;
    }
    match outlets[number].put(released) {
        Ok(()) => Some(number),
        Err(_) => None,
    }
}

/// Puts effects into the rings of their recipients, in order, and marks those rings, as far as
/// there are marks. Returns how many were lost; `missed` gets their recipients, as far as there is
/// memory.
pub fn route(
    directory: &Directory,
    outlets: &mut [Outlet],
    released: Vec<Released>,
    marks: &mut [bool],
    missed: &mut Vec<Recipient>,
) -> usize
    ensures routed { IsRouted directory.now (effects_of_all released.items) result outlets.old
        outlets.new }
    ensures marked { AreMarked marks.old marks.new outlets.old outlets.new }
{
    let mut lost: usize = 0;
    for one in released {
        let name = Recipient::of(one.effect());
        match route_one(directory, outlets, one) {
            Some(number) if number < marks.len() => marks[number] = true,
            Some(_) => {}
            None => {
                lost += 1;
                let _ = missed.push(name);
            }
        }
    }
    lost
}
