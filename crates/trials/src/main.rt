// The trial cases of 01, run over the proved crates. What it prints is held to the file stdout beside src/, which was written from 01.
// What cannot be written is lost, and the rest goes on.
#![tactic(auto)]

use length::{Length, Order, read_limit};
use refusal::Refusal;
use regrow::Halt;
use std::fmt::Display;

// The farthest that a coordinate may lie from 0.
const FAR: i32 = corners::MOST_COORDINATE;

// The numbers of five records.
const FIVE_RECORDS: usize = 5 * record::WIDTH;

// The numbers of the trial ring, and the coordinates of its 64 corners.
const RING_NUMBERS: usize = 384;

const RING_COORDINATES: usize = 192;

// The 32 by 16 torus, built as the trial ring is: two rows for each corner, as many as a table may have.
const DOWN: usize = 32;

const ACROSS: usize = 16;

const TORUS_NUMBERS: usize = 6 * DOWN * ACROSS;

const TORUS_COORDINATES: usize = 3 * DOWN * ACROSS;

// The octahedron, and what thinning it leaves: its last rows, and its two records.
const O: [u32; 24] = [
    0, 1, 2, 0, 2, 3, 0, 3, 4, 0, 4, 1, 5, 2, 1, 5, 3, 2, 5, 4, 3, 5, 1, 4,
];

const O_CORNERS: [i32; 18] = [
    0, 0, 100, 100, 0, 0, 0, 100, 0, -100, 0, 0, 0, -100, 0, 0, 0, -100,
];

// The tetrahedron, another that shares its corner 0, and one that stands apart.
const T: [u32; 12] = [0, 1, 2, 0, 2, 3, 0, 3, 1, 1, 3, 2];

const T_SHARING: [u32; 12] = [0, 4, 5, 0, 5, 6, 0, 6, 4, 4, 6, 5];

const T_APART: [u32; 12] = [4, 5, 6, 4, 6, 7, 4, 7, 5, 5, 7, 6];

// Nine corners, no two on one point.
const NINE_CORNERS: [i32; 27] = [
    0, 1, 2, 3, 4, 5, 6, 7, 8, 9, 10, 11, 12, 13, 14, 15, 16, 17, 18, 19, 20, 21, 22, 23, 24, 25,
    26,
];

const O_END: [u32; 12] = [0, 3, 4, 5, 3, 0, 5, 4, 3, 5, 0, 4];

const O_LOG: [u32; 2 * record::WIDTH] = [
    0, 1, 0, 0, 1, 2, 3, 0, 4, 1, 0, 2, 0, 0, 2, 3, 2, 5, 2, 0,
];

// A piece of a line. Each is written by itself, and lost alone where it cannot be written.
fn put(rt: &impl Print, piece: impl Display + Drop) {
    let _ = print!(rt; "{piece}");
}

// The name that a line begins with.
fn put_name(rt: &impl Print, name: &str) {
    let _ = print!(rt; "{name}: ");
}

// A line's number, and how it ends.
fn put_count(rt: &impl Print, k: usize, end: &str) {
    put(rt, k);
    put(rt, end);
}

// A line of a typed length and its limit.
fn show_limit(rt: &impl Print, name: &str, l: Length) {
    put_name(rt, name);
    match read_limit(l) {
        Some(c) => {
            put(rt, c);
            put(rt, " cm\n");
        }
        None => put(rt, "unusable\n"),
    }
}

// 01's typed limits, and 02's in survey feet, ft, and international feet, ift.
fn limits(rt: &impl Print) {
    show_limit(rt, "limit 1.5 m", Length::Metres(1.5));
    show_limit(rt, "limit 1.375 m", Length::Metres(1.375));
    show_limit(rt, "limit 4.75 ft", Length::Feet(4.75));
    show_limit(rt, "limit 0.29 m", Length::Metres(0.29));
    show_limit(rt, "limit 0.3 m", Length::Metres(0.3));
    show_limit(rt, "limit 4.75 ift", Length::InternationalFeet(4.75));
    show_limit(rt, "limit 6561.25 ft", Length::Feet(6561.25));
    show_limit(rt, "limit 6561.25 ift", Length::InternationalFeet(6561.25));
    show_limit(rt, "limit 6561.7 ft", Length::Feet(6561.7));
    show_limit(rt, "limit 6561.7 ift", Length::InternationalFeet(6561.7));
}

// A refusal behind a line's name.
fn put_refusal(rt: &impl Print, e: Refusal) {
    put(rt, "refused ");
    put(rt, u32::from(e));
    put(rt, "\n");
}

// A line of a thinning's answer.
fn show_thinning(rt: &impl Print, name: &str, r: Result<usize, Refusal>) {
    put_name(rt, name);
    match r {
        Ok(k) => put_count(rt, k, " records\n"),
        Err(e) => put_refusal(rt, e),
    }
}

// The same of a small table thinned without a limit.
fn show_thinned(rt: &impl Print, name: &str, t: &mut [u32], xs: &[i32]) {
    let mut log = [0u32; FIVE_RECORDS];
    show_thinning(rt, name, thin::thin(t, xs, Order::NoLimit, &mut log));
}

// The octahedron without its last row, with fewer rows than a skin has, and with a coordinate missing.
fn octahedra(rt: &impl Print) {
    let xs = O_CORNERS;
    let mut open = [0u32; 21];
    open.copy_from_slice(&O[..21]);
    show_thinned(rt, "O without its last row", &mut open, &xs);
    let mut three = [0u32; 9];
    three.copy_from_slice(&O[..9]);
    show_thinned(rt, "O's first three rows", &mut three, &xs);
    let mut t = O;
    show_thinned(rt, "O without its last coordinate", &mut t, &xs[..17]);
}

// Coordinates at their limit and past it.
fn far_corners(rt: &impl Print) {
    let mut t = T;
    show_thinned(rt, "T to 50,000 and -50,000", &mut t, &spanned(FAR, -FAR));
    show_thinned(rt, "T to 50,001", &mut t, &spanned(FAR + 1, 300));
    show_thinned(rt, "T to -50,001", &mut t, &spanned(300, -FAR - 1));
}

// The corners (0, 0, 0), (x, 0, 0), (0, 300, 0) and (0, 0, z).
fn spanned(x: i32, z: i32) -> [i32; 12] {
    [0i32, 0, 0, x, 0, 0, 0, 300, 0, 0, 0, z]
}

// T and another tetrahedron in one table.
fn with_t(second: &[u32; 12]) -> [u32; 24] {
    let mut t = [0u32; 24];
    t[..12].copy_from_slice(&T);
    t[12..].copy_from_slice(second);
    t
}

// Two tetrahedra: sharing a corner, apart, and with a corner that no row uses.
fn pairs(rt: &impl Print) {
    let mut shared = with_t(&T_SHARING);
    let mut apart = with_t(&T_APART);
    let xs = NINE_CORNERS;
    show_thinned(
        rt,
        "two tetrahedra that share a corner",
        &mut shared,
        &xs[..21],
    );
    show_thinned(rt, "and a corner that no row uses", &mut shared, &xs[..24]);
    show_thinned(rt, "two tetrahedra apart", &mut apart, &xs[..24]);
    show_thinned(rt, "and a corner that no row uses", &mut apart, &xs);
}

// The numbers of a list, parted by blanks, on one line.
fn show_numbers(rt: &impl Print, name: &str, l: &[u32]) {
    let _ = print!(rt; "{name}:");
    for x in l {
        put(rt, " ");
        put(rt, *x);
    }
    put(rt, "\n");
}

// The octahedron thinned: its rows and records as in 01's sheet.
fn thin_octahedron(rt: &impl Print) {
    let mut t = O;
    let xs = O_CORNERS;
    let mut log = [7u32; 2 * record::WIDTH + 1];
    let r = thin::thin(&mut t, &xs, Order::NoLimit, &mut log);
    show_thinning(rt, "O thinned", r);
    show_numbers(rt, "O's table then", &t);
    show_numbers(rt, "O's log then", &log);
    let mut short = [7u32; 2 * record::WIDTH - 1];
    let again = thin::thin(&mut t, &xs, Order::NoLimit, &mut short);
    show_thinning(rt, "with room for 19 numbers", again);
}

// A line of the answer of growing back or of replay.
fn show_regrown(rt: &impl Print, name: &str, a: Result<usize, Halt>) {
    put_name(rt, name);
    match a {
        Ok(k) => put_count(rt, k, " records done\n"),
        Err(Halt::Stopped(k)) => {
            put(rt, "refused 13 after ");
            put_count(rt, k, " records\n");
        }
        Err(Halt::Refused(e)) => put_refusal(rt, e),
    }
}

// The octahedron's last rows in a room with two numbers to spare, and a log grown back there.
fn grow_octahedron(rt: &impl Print, name: &str, log: &[u32]) {
    let mut room = [9u32; 26];
    room[..12].copy_from_slice(&O_END);
    show_regrown(rt, name, regrow::grow_back(&mut room, 4, 6, log));
    show_numbers(rt, "the room then", &room);
}

// A log replayed on the octahedron.
fn replay_octahedron(rt: &impl Print, name: &str, log: &[u32]) {
    let mut t = O;
    show_regrown(rt, name, replay::replay(&mut t, 6, log));
    show_numbers(rt, "the table then", &t);
}

// The octahedron's log with another first record.
fn with_first(first: [u32; record::WIDTH]) -> [u32; 2 * record::WIDTH] {
    let mut log = O_LOG;
    log[..record::WIDTH].copy_from_slice(&first);
    log
}

// Such a log grown back.
fn spoiled(rt: &impl Print, name: &str, first: [u32; record::WIDTH]) {
    grow_octahedron(rt, name, &with_first(first));
}

// Growing back and replay: 01's octahedron, and records that fail.
fn logs(rt: &impl Print) {
    grow_octahedron(rt, "O grown back from its two records", &O_LOG);
    replay_octahedron(rt, "O's two records replayed", &O_LOG);
    let turned = with_first([0u32, 1, 0, 1, 2, 0, 3, 0, 4, 1]);
    grow_octahedron(rt, "with a row turned", &turned);
    replay_octahedron(rt, "replayed", &turned);
    spoiled(rt, "removed is used", [0u32, 2, 0, 0, 1, 2, 3, 0, 4, 2]);
    spoiled(rt, "places equal", [0u32, 1, 3, 0, 1, 2, 3, 0, 4, 1]);
    spoiled(
        rt,
        "a place one past the grown table",
        [0u32, 1, 0, 0, 1, 2, 8, 0, 4, 1],
    );
}

// T with one record, M with five and with six.
fn too_many_records(rt: &impl Print) {
    let mut t = T;
    show_regrown(
        rt,
        "T with one record",
        replay::replay(&mut t, 4, &O_LOG[..record::WIDTH]),
    );
    let mut m = [
        0u32, 1, 3, 0, 3, 2, 1, 2, 4, 1, 4, 3, 2, 3, 5, 2, 5, 4, 3, 4, 6, 3, 6, 5, 4, 5, 0, 4, 0,
        6, 5, 6, 1, 5, 1, 0, 6, 0, 2, 6, 2, 1,
    ];
    let mut log = [0u32; 6 * record::WIDTH];
    log[..record::WIDTH].copy_from_slice(&[0u32, 1, 0, 0, 1, 3, 11, 5, 1, 0]);
    show_regrown(
        rt,
        "M with five records",
        replay::replay(&mut m, 7, &log[..FIVE_RECORDS]),
    );
    show_regrown(rt, "M with six records", replay::replay(&mut m, 7, &log));
    show_numbers(rt, "M then", &m);
}

// The trial ring's numbers into a lent table.
fn copy_ring(t: &mut [u32]) {
    for (i, x) in t.iter_mut().enumerate() {
        *x = ring::trial_number(i).unwrap_or(0);
    }
}

// Distinct corners, as long as they are fewer than 1,000: the coordinates count up, and start anew at 1,000.
fn place_corners(xs: &mut [i32]) {
    for (i, x) in xs.iter_mut().enumerate() {
        *x = (i % 1000) as i32;
    }
}

// The trial ring thinned: 55 records, 18 rows left.
fn thin_ring(rt: &impl Print) {
    let mut t = [0u32; RING_NUMBERS];
    copy_ring(&mut t);
    let mut xs = [0i32; RING_COORDINATES];
    place_corners(&mut xs);
    let mut log = [0u32; 60 * record::WIDTH];
    let r = thin::thin(&mut t, &xs, Order::NoLimit, &mut log);
    show_thinning(rt, "the trial ring thinned", r);
    show_numbers(rt, "past its 18 rows then", &t[54..60]);
}

// A number of the torus: 1,024 rows over 512 corners.
fn torus_number(i: usize) -> u32 {
    let r = i / 6 / ACROSS;
    let c = i / 6 % ACROSS;
    match i % 6 {
        1 => torus_corner(r + 1, c),
        2 | 4 => torus_corner(r + 1, c + 1),
        5 => torus_corner(r, c + 1),
        _ => torus_corner(r, c),
    }
}

fn torus_corner(r: usize, c: usize) -> u32 {
    (ACROSS * (r % DOWN) + c % ACROSS) as u32
}

fn copy_torus(t: &mut [u32]) {
    for (i, x) in t.iter_mut().enumerate() {
        *x = torus_number(i);
    }
}

// Its corners take the four ends of a tetrahedron in a cube of the largest coordinates, so that every row has the largest determinant, and all
// of one sign.
fn torus_coordinate(i: usize, out: i32) -> i32 {
    let p = i / 3 / ACROSS % 2;
    let q = i / 3 % 2;
    match i % 3 {
        0 if q == 0 => out,
        0 => near(out),
        1 if p == q => FAR,
        1 => -FAR,
        _ if p == 0 => FAR,
        _ => -FAR,
    }
}

// The other end of a coordinate's range.
fn near(out: i32) -> i32 {
    if out == FAR { -FAR } else { FAR }
}

fn place_torus(xs: &mut [i32], out: i32) {
    for (i, x) in xs.iter_mut().enumerate() {
        *x = torus_coordinate(i, out);
    }
}

// A line of a volume's answer.
fn show_volume(rt: &impl Print, name: &str, r: Result<i64, Refusal>) {
    put_name(rt, name);
    match r {
        Ok(f) => {
            if f < 0 {
                put(rt, "-");
            }
            put(rt, f.unsigned_abs());
            put(rt, "\n");
        }
        Err(e) => put_refusal(rt, e),
    }
}

// Sums on either side of a half cubic metre, and at one and a half: the three corners of T beside the first span the sum.
fn halves(rt: &impl Print) {
    show_span(rt, "the sum 2,999,999", [2000, 1, 1, 1500, -1]);
    show_span(rt, "the sum -2,999,999", [2000, 1, 1, 1500, 1]);
    show_span(rt, "the sum 3,000,000", [100, 0, 0, 100, -300]);
    show_span(rt, "the sum -3,000,000", [100, 0, 0, 100, 300]);
    show_span(rt, "the sum 9,000,000", [300, 0, 0, 100, -300]);
    show_span(rt, "the sum -9,000,000", [300, 0, 0, 100, 300]);
}

// The volume of T with the corners (0, 0, 0), (a, b, 0), (c, d, 0) and (0, 0, e): its sum is (b x c - a x d) x e.
fn show_span(rt: &impl Print, name: &str, [a, b, c, d, e]: [i32; 5]) {
    let xs = [0i32, 0, 0, a, b, 0, c, d, 0, 0, 0, e];
    show_volume(rt, name, volume::volume(&T, &xs));
}

// The most rows, and one more; under a limit of 0 no edge is short enough, since no two corners lie on one point.
fn most_rows(rt: &impl Print) {
    let mut xs = [0i32; TORUS_COORDINATES];
    place_corners(&mut xs);
    let mut log = [0u32; 508 * record::WIDTH];
    let zero = Order::Limit(Length::Centimetres(0.0));
    let mut most = [0u32; TORUS_NUMBERS];
    copy_torus(&mut most);
    show_thinning(rt, "1,024 rows", thin::thin(&mut most, &xs, zero, &mut log));
    let mut more = [0u32; TORUS_NUMBERS + 3];
    copy_torus(&mut more);
    show_thinning(rt, "1,025 rows", thin::thin(&mut more, &xs, zero, &mut log));
}

// The largest sums: 512,000,000,000,000,000 either way.
fn largest_sums(rt: &impl Print) {
    let mut t = [0u32; TORUS_NUMBERS];
    copy_torus(&mut t);
    let mut xs = [0i32; TORUS_COORDINATES];
    place_torus(&mut xs, FAR);
    show_volume(rt, "1,024 rows at the limits", volume::volume(&t, &xs));
    place_torus(&mut xs, -FAR);
    show_volume(rt, "and mirrored", volume::volume(&t, &xs));
}

fn main(rt: HostRuntime) {
    limits(&rt);
    halves(&rt);
    octahedra(&rt);
    most_rows(&rt);
    far_corners(&rt);
    pairs(&rt);
    thin_octahedron(&rt);
    logs(&rt);
    too_many_records(&rt);
    thin_ring(&rt);
    largest_sums(&rt);
}
