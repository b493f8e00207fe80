// Room counted down, part by part: a sum of lengths could pass 64 bits where columns are wide, and the room that is left can't.
#![tactic(auto)]

ghost use Rattle.std.specs.Prelude.{◌≡◌};
ghost use Rattle.measuring.specs.Room.{room_of, less};

// The room that a part of `n` bytes leaves, if it fits.
pub fn take(room: usize, n: usize) -> Option<usize>
    ensures { room_of result ≡ less room n }
{
    room.checked_sub(n)
}
