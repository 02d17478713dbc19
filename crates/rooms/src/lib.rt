// One place of a lent room, read and written. A place past the end of the room reads as what the caller names and takes nothing, so
// that no caller has to show that it stays inside.
#![tactic(auto)]

ghost use Rattle.std.specs.Prelude.{◌≡◌, get_or, set};

// What stands at a place, or `none` past the end of the room.
pub fn at_or<T: Copy>(room: &[T], at: usize, none: T) -> T
    ensures { result ≡ get_or room.now at none }
{
    room.get(at).copied().unwrap_or(none)
}

// v at a place; nothing past the end of the room.
pub fn put<T: Copy>(room: &mut [T], at: usize, v: T)
    ensures { room.new ≡ set room.old at v }
{
    if at < room.len() {
        room[at] = v;
    }
}
