// The clerk's look at a file on standard input: how it reads in each form, and of the object that it gives the counts of the five parts
// and whether it is fair. Where the file has more than 65,536 bytes, 3 and a newline are printed; an object of more than 16,384 words is
// refused with 3.
#![tactic(auto)]

use binary_read::read_binary;
use fair::is_fair;
use part_counts::count_parts;
use printing::{object_room, read_input};
use text_read::read_text;
use units::Refusal;

// A line of a name and a number.
fn tell_count(name: &[u8], count: u64) {
    io::write_all(1, name);
    io::print_decimal(1, count);
    io::write_all(1, b"\n");
}

// How the file reads in a form.
fn tell_form(name: &[u8], r: Result<usize, Refusal>) {
    io::write_all(1, name);
    match r {
        Ok(len) => {
            io::write_all(1, b"reads, ");
            io::print_decimal(1, len as u64);
            io::write_all(1, b" words\n");
        }
        Err(refusal) => tell_count(b"refused, number ", u64::from(refusal.number())),
    }
}

// The counts of the five parts, and whether the object is fair.
fn tell_object(ws: &[u32]) {
    let counts = count_parts(ws);
    tell_count(b"blocks: ", counts.blocks);
    tell_count(b"labels: ", counts.labels);
    tell_count(b"line blocks: ", counts.line_blocks);
    tell_count(b"sources: ", counts.sources);
    tell_count(b"relocations: ", counts.relocations);
    if is_fair(ws) == Ok(true) {
        io::write_all(1, b"fair: yes\n");
    } else {
        io::write_all(1, b"fair: no\n");
    }
}

// Both forms, and the object of the one in which the file reads.
fn tell_file(file: &[u8]) {
    let mut words = object_room();
    let mut others = object_room();
    let b = read_binary(file, &mut words);
    let t = read_text(file, &mut others);
    tell_form(b"binary: ", b);
    tell_form(b"text: ", t);
    if let Ok(n) = b {
        tell_object(&words[..n]);
    }
    if let Ok(n) = t {
        tell_object(&others[..n]);
    }
}

fn main() {
    let mut input = io::large_buffer();
    let Ok(n) = read_input(&mut input) else {
        io::write_all(1, b"3\n");
        return;
    };
    tell_file(&input[..n]);
}
