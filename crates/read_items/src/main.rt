// Reads items by the struct that holds the table, the words and the place: opens a reader, takes two items, and prints what
// came of each. The words are those of document 01's row `204 4095` under the plain table; under a table of no bytes the reader
// never gives an item.
#![tactic(auto)]

use answer::refusal::Refusal;
use code_table::plain::plain_table;
use command::say::fail;
use row_reader::reader::take_two;
use row_reader::step::GivenItem;
use std::io::Print;
use text::number::put_field;
use text::put::put_bytes;

fn main(rt: HostRuntime) {
    let mut table = [0u8; 2072];
    let words = [0x31u8, 0xc3, 0x00, 0x00];
    plain_table(&mut table);
    print_items(rt, &table, &words);
    print_items(rt, b"", &words);
}

fn print_items<'a>(rt: HostRuntime, table: &'a [u8], words: &'a [u8]) {
    let taken = take_two(table, words);
    let at = print_item(rt, taken.first, 0);
    print_item(rt, taken.second, at);
}

// One line: the number, the pixel, and the bit place after the item, which is `before` where it is refused. The answer is that place.
fn print_item(rt: HostRuntime, item: Result<GivenItem, Refusal>, before: usize) -> usize {
    let (number, pixel, at) = match item {
        Ok(given) => (0, given.pixel, given.place.at),
        Err(refusal) => (refusal.number(), 0, before),
    };
    let mut line = [0u8; 128];
    let mut n = put_field(&mut line, 0, b"number ", number as u64);
    n = put_field(&mut line, n, b" pixel ", pixel as u64);
    n = put_field(&mut line, n, b" at ", at as u64);
    n = put_bytes(&mut line, n, b"\n");
    if let Err(e) = rt.stdout().write_all(&line[..n]) {
        fail(rt, b"standard output", e);
    }
    at
}
