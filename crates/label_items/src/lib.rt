// Labels in an array of numbers, as items: their words, the room after these, and how two tables of them are joined.
#![tactic(auto)]

ghost use Rattle.std.specs.Prelude.{◌≡◌, true, map, ◌/◌, ◌≤◌, length, get_or};
ghost use Rattle.format.specs.Sorted.{order};
ghost use Rattle.format.specs.Records.{label};
ghost use Rattle.format.specs.Words.{record_words};
ghost use Rattle.writing.specs.Written.{Put};
ghost use Rattle.trim.specs.Span.{part};
ghost use Rattle.text_words.specs.Room.{room_of, room_for, room_after};
ghost use Rattle.text_words.specs.Written.{PutEach};
ghost use Rattle.gather.specs.Tags.{as_cmp};
ghost use Rattle.label_items.specs.Joins.{tables_of, next_tables, chosen, joined_item};
ghost use Rattle.label_items.specs.Items.{label_of, item_at, cached_labels};

use std::cmp::Ordering;
use text_words::put_label;

// A label: where its name stands, its address (65,536 more if it is external), and its source start.
#[derive(Clone, Copy)]
pub struct Item {
    pub start: usize,
    pub end: usize,
    pub head: usize,
    pub index: usize,
}

// Number i of an array of places; 0 past its end.
pub fn place_at(a: &[usize], i: usize) -> usize
    ensures { result ≡ get_or a.now i 0 }
{
    a.get(i).copied().unwrap_or(0)
}

// Item i where less than four numbers of it are there.
fn last_item(items: &[usize], i: usize) -> Item
    requires { length items.now / 4 ≤ i }
    ensures { result ≡ item_at items.now i }
{
    if items.len() / 4 < i {
        return Item {
            start: 0,
            end: 0,
            head: 0,
            index: 0,
        };
    }
    let at = 4 * i;
    Item {
        start: place_at(items, at),
        end: place_at(items, at + 1),
        head: place_at(items, at + 2),
        index: 0,
    }
}

// Item i of an array, four numbers to an item.
pub fn item_at(items: &[usize], i: usize) -> Item
    ensures { result ≡ item_at items.now i }
{
    if items.len() / 4 <= i {
        return last_item(items, i);
    }
    let at = 4 * i;
    Item {
        start: items[at],
        end: items[at + 1],
        head: items[at + 2],
        index: items[at + 3],
    }
}

// The name of a label: what there is of its range in the text.
fn name_of<'a>(t: &'a [u8], x: Item) -> &'a [u8]
    ensures { result.now ≡ part x.start x.end t.now }
{
    let end = x.end.min(t.len());
    if end < x.start {
        return &[];
    }
    &t[x.start..end]
}

// The words of a label.
fn put_item(out: &mut [u32], t: &[u8], x: Item) -> usize
    ensures { Put (record_words (label (label_of t.now x))) out.old result out.new }
{
    let address = (x.head % 65536) as u16;
    put_label(out, address, 65536 <= x.head, x.index as u64, name_of(t, x))
}

// The words of the first n labels of an array.
pub fn put_cached(out: &mut [u32], t: &[u8], items: &[usize], n: usize) -> usize
    ensures { PutEach (map record_words (map label (cached_labels t.now items.now n))) out.old result out.new }
{
    let mut at = 0;
    for i in 0..n {
        at += put_item(&mut out[at..], t, item_at(items, i));
    }
    at
}

// The room after the words of a label; none where it is too short.
fn item_room(t: &[u8], x: Item, room: usize) -> Option<usize>
    ensures { room_of result ≡ room_for (length (record_words (label (label_of t.now x)))) room }
{
    room.checked_sub(4 + name_of(t, x).len().div_ceil(3))
}

// The room after the words of the first n labels of an array.
pub fn cached_room(t: &[u8], items: &[usize], n: usize, room: usize) -> Option<usize>
    ensures { room_of result ≡ room_after (map record_words (map label (cached_labels t.now items.now n))) room }
{
    let mut left = room;
    for i in 0..n {
        left = item_room(t, item_at(items, i), left)?;
    }
    Some(left)
}

// Which tables a label is from.
#[derive(Clone, Copy)]
pub enum Next {
    Symbol,
    Start,
    Both,
}

impl Next {
    // The tables of the next label, by how the name of the next row of .SYMBOL compares with that of the label table.
    pub fn of(order: Ordering) -> Self
        ensures { (o : _) → order ≡ as_cmp o → tables_of result ≡ chosen true true o }
    {
        match order {
            Ordering::Less => Next::Symbol,
            Ordering::Equal => Next::Both,
            Ordering::Greater => Next::Start,
        }
    }

    // The label has a row of .SYMBOL.
    pub fn has_symbol(self) -> bool
        ensures { result ≡ (tables_of self).symbol }
    {
        !matches!(self, Next::Start)
    }

    // The label has a row of the label table.
    pub fn has_start(self) -> bool
        ensures { result ≡ (tables_of self).start }
    {
        !matches!(self, Next::Symbol)
    }
}

// Which of the names of two labels comes first.
fn compare_names(t: &[u8], a: Item, b: Item) -> Ordering
    ensures { result ≡ as_cmp (order (part a.start a.end t.now) (part b.start b.end t.now)) }
{
    name_of(t, a).cmp(name_of(t, b))
}

// Which tables the next label is from, where there are rows left of .SYMBOL, next a, and of the label table, next b; none where neither has any.
pub fn choose(t: &[u8], symbols: bool, a: Item, starts: bool, b: Item) -> Option<Next>
    ensures { next_tables result ≡ chosen symbols starts (order (part a.start a.end t.now) (part b.start b.end t.now)) }
{
    if !symbols {
        return if starts { Some(Next::Start) } else { None };
    }
    if !starts {
        return Some(Next::Symbol);
    }
    Some(Next::of(compare_names(t, a, b)))
}

// The next label: of both tables, or with 0 for the other's fields.
pub fn join_items(x: Next, a: Item, b: Item) -> Item
    ensures { result ≡ joined_item (tables_of x) a b }
{
    match x {
        Next::Symbol => Item { index: 0, ..a },
        Next::Start => Item { head: 0, ..b },
        Next::Both => Item {
            index: b.index,
            ..a
        },
    }
}
