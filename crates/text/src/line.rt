// The lines of the listers, each at most 128 bytes long: some words and a number, once to four times, and an end.
ghost use Rattle.std.specs.Prelude.{◌++◌, ◌+◌, ◌≤◌, length};
ghost use Rattle.text.specs.Text.{field, fields};
ghost use Rattle.text.specs.Lines.{newline, table_line, packed_line, plain_line, contour_line, done_line, refused_at_line, refused_bit_line, refused_line};
ghost use Rattle.text.specs.Put.{Put};

use crate::number::{put_field, put_fields};
use crate::put::put_bytes;

fn put_one(out: &mut [u8], at: usize, words: &[u8], n: u64, end: &[u8]) -> usize
    requires { at + length words.now + length end.now + 20 ≤ length out.old }
    ensures put { Put out.old at (field words.now n ++ end.now) result out.new }
    ensures most { result ≤ at + length words.now + length end.now + 20 }
{
    let next = put_field(out, at, words, n);
    put_bytes(out, next, end)
}

fn put_two(
    out: &mut [u8],
    at: usize,
    words: &[u8],
    n: u64,
    more: &[u8],
    k: u64,
    end: &[u8],
) -> usize
    requires { at + length words.now + length more.now + length end.now + 40 ≤ length out.old }
    ensures put { Put out.old at
        (fields words.now n more.now k ++ end.now) result out.new }
    ensures most { result ≤ at + length words.now + length more.now + length end.now + 40 }
{
    let next = put_fields(out, at, words, n, more, k);
    put_bytes(out, next, end)
}

fn put_four(
    out: &mut [u8],
    at: usize,
    first: &[u8],
    i: u64,
    second: &[u8],
    j: u64,
    third: &[u8],
    k: u64,
    fourth: &[u8],
    n: u64,
) -> usize
    requires { at + length first.now + length second.now + length third.now + length fourth.now + 81 ≤ length out.old }
    ensures put { Put out.old at
        (fields first.now i second.now j ++ (fields third.now k fourth.now n ++ newline))
        result out.new }
    ensures most { result ≤ at + length first.now + length second.now + length third.now
        + length fourth.now + 81 }
{
    let middle = put_fields(out, at, first, i, second, j);
    put_two(out, middle, third, k, fourth, n, b"\n")
}

// `table 1 low 3837 size 512 worst 14`
pub fn put_table_line(out: &mut [u8], at: usize, id: u32, low: u32, size: u32, worst: u32) -> usize
    requires { at + 128 ≤ length out.old }
    ensures put { Put out.old at (table_line id low size worst) result out.new }
    ensures most { result ≤ at + 128 }
{
    put_four(
        out,
        at,
        b"table ",
        id as u64,
        b" low ",
        low as u64,
        b" size ",
        size as u64,
        b" worst ",
        worst as u64,
    )
}

// `row 0 pixels 2 bits 17 words 1`
pub fn put_packed_line(
    out: &mut [u8],
    at: usize,
    row: u32,
    pixels: u32,
    bits: u32,
    words: u32,
) -> usize
    requires { at + 128 ≤ length out.old }
    ensures put { Put out.old at (packed_line row pixels bits words) result out.new }
    ensures most { result ≤ at + 128 }
{
    put_four(
        out,
        at,
        b"row ",
        row as u64,
        b" pixels ",
        pixels as u64,
        b" bits ",
        bits as u64,
        b" words ",
        words as u64,
    )
}

// `row R pixels P plain`
pub fn put_plain_line(out: &mut [u8], at: usize, row: u32, pixels: u32) -> usize
    requires { at + 128 ≤ length out.old }
    ensures put { Put out.old at (plain_line row pixels) result out.new }
    ensures most { result ≤ at + 128 }
{
    put_two(
        out,
        at,
        b"row ",
        row as u64,
        b" pixels ",
        pixels as u64,
        b" plain\n",
    )
}

// `line numbers C`
pub fn put_contour_line(out: &mut [u8], at: usize, numbers: u32) -> usize
    requires { at + 128 ≤ length out.old }
    ensures put { Put out.old at (contour_line numbers) result out.new }
    ensures most { result ≤ at + 128 }
{
    put_one(out, at, b"line numbers ", numbers as u64, b"\n")
}

// `done rows 2`
pub fn put_done_line(out: &mut [u8], at: usize, rows: u64) -> usize
    requires { at + 128 ≤ length out.old }
    ensures put { Put out.old at (done_line rows) result out.new }
    ensures most { result ≤ at + 128 }
{
    put_one(out, at, b"done rows ", rows, b"\n")
}

// `refused N at record K`
pub fn put_refused_at_line(out: &mut [u8], at: usize, number: u32, index: u64) -> usize
    requires { at + 128 ≤ length out.old }
    ensures put { Put out.old at (refused_at_line number index) result out.new }
    ensures most { result ≤ at + 128 }
{
    put_two(
        out,
        at,
        b"refused ",
        number as u64,
        b" at record ",
        index,
        b"\n",
    )
}

// `refused N at record K bit B`
pub fn put_refused_bit_line(out: &mut [u8], at: usize, number: u32, index: u64, bit: u32) -> usize
    requires { at + 128 ≤ length out.old }
    ensures put { Put out.old at (refused_bit_line number index bit) result out.new }
    ensures most { result ≤ at + 128 }
{
    let middle = put_fields(out, at, b"refused ", number as u64, b" at record ", index);
    put_one(out, middle, b" bit ", bit as u64, b"\n")
}

// `refused N`
pub fn put_refused_line(out: &mut [u8], at: usize, number: u32) -> usize
    requires { at + 128 ≤ length out.old }
    ensures put { Put out.old at (refused_line number) result out.new }
    ensures most { result ≤ at + 128 }
{
    put_one(out, at, b"refused ", number as u64, b"\n")
}
