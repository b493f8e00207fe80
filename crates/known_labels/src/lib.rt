// The room after the words of a text file's labels, by way of an array where it has room for all labels, and else from the rows.
#![tactic(auto)]

ghost use Rattle.std.specs.Prelude.{◌≡◌};
ghost use Rattle.text_words.specs.Room.{room_of, room_after};
ghost use Rattle.known_labels.specs.Known.{label_parts};

use label_cache::gather;
use label_items::cached_room;
use text_labels::labels_room;

// The room after the labels, with room for many; none where it is too short.
fn many_room(u: &[u8], room: usize) -> Option<usize>
    ensures { room_of result ≡ room_after (label_parts u.now) room }
{
    let mut items = [0usize; 16384];
    let Some(n) = gather::<16384, 4096>(u, &mut items) else {
        return labels_room(u, room);
    };
    cached_room(u, &items, n, room)
}

// The same, with room for few first, unless for many is asked, and once more if they are not enough. It calls itself so that the arrays for
// many are not in its frame.
fn room_by(u: &[u8], room: usize, many: bool) -> Option<usize>
    ensures { room_of result ≡ room_after (label_parts u.now) room }
{
    if many {
        return many_room(u, room);
    }
    let mut items = [0usize; 4096];
    if let Some(n) = gather::<2048, 512>(u, &mut items) {
        return cached_room(u, &items, n, room);
    }
    room_by(u, room, true)
}

// The room after the labels of a text file; a long one often has many.
pub fn all_labels_room(u: &[u8], room: usize) -> Option<usize>
    ensures { room_of result ≡ room_after (label_parts u.now) room }
{
    room_by(u, room, 32768 <= u.len())
}
